ghost use Rattle.std.specs.Prelude.{◌≡◌, ◌≤◌, length, true, IfErr, IfOk, OnOk, Some};
ghost use Rattle.csv.specs.Reading.{ReadRecord, Ready, error_kind, is_flexible, reader_trim, stops_reader, took_first};
ghost use Rattle.csv.specs.Records.{fields_of};
ghost use Rattle.csv.specs.declared.reader.Trim.TheVariants as trim;
ghost use Rattle.csv_load.specs.Rows.{rows};
ghost use Rattle.csv_load.specs.Outcome.{Gives};
ghost use Rattle.csv_load.specs.declared.error.LoadError.TheVariants.{NoMemory as no_memory};

use crate::LoadError;
use crate::row::read_row;
use csv::{ByteRecord, Error, ErrorKind, Reader, ReaderBuilder};
use mv_model::{Shape, Values};
use std::alloc::Global;

/// The answer where a record could not be read: a request for memory was refused. Bytes in memory are always there to
/// be read, so a fault of theirs is none of another kind.
fn failure(error: &Error) -> LoadError
    requires { stops_reader (error_kind error.now) ≡ true }
    ensures { result ≡ no_memory }
{
    match error.kind() {
        ErrorKind::OutOfMemory | ErrorKind::Io(_) => LoadError::NoMemory,
        _ => unreachable!(),
    }
}

/// Reads the fields of the next record, as many as it has, and says whether there was one.
fn read_next(reader: &mut Reader<&[u8]>, fields: &mut ByteRecord) -> Result<bool, LoadError>
    requires whole { reader_trim reader.old ≡ trim.None }
    requires ready { Ready reader.old }
    requires flexible { is_flexible reader.old ≡ true }
    ensures read { IfOk result (λ found.
        ReadRecord (λ bytes. Some bytes.now) reader.old reader.new found (fields_of fields.new)) }
    ensures ready { OnOk result (took_first reader.new ≡ true) }
    ensures flexible { OnOk result (is_flexible reader.new ≡ true) }
    ensures memory { IfErr result (λ error. error ≡ no_memory) }
{
    match reader.read_byte_record(fields) {
        Ok(found) => Ok(found),
        Err(error) => Err(failure(&error)),
    }
}

/// The rows that the records of a text are in a table of this shape, or the first cause why they are none: record by
/// record, the number of its fields before the fields, these from the left. docs/CSV.md says what a record is.
pub fn typed_rows(alloc: Global, bytes: &[u8], shape: &Shape) -> Result<Vec<Values>, LoadError>
    requires { length bytes.now ≤ 41943040 }
    ensures { Gives (λ table. table.items) result (rows bytes.now shape.now) }
{
    let mut reader = ReaderBuilder::new()
        .has_headers(false)
        .flexible(true)
        .from_reader(alloc, bytes);
    let mut record = ByteRecord::new(alloc);
    let mut rows = Vec::new(alloc);
    'records: while read_next(&mut reader, &mut record)? {
        let nth = rows.len() as u32 + 1;
        rows.push(read_row(alloc, nth, shape.columns(), &record)?)?;
    }
    Ok(rows)
}
