ghost use Rattle.std.specs.Prelude.{◌≡◌, [], ◌∷◌, ◌++◌, false, map, true, IfOk, OnOk};
ghost use Rattle.csv.specs.Records.{fields_of, partial_of};
ghost use Rattle.csv.specs.Writing.{default_writer, fields_written, has_written, with_flexible};
ghost use Rattle.csv.specs.Writing.{writer_pending, writer_setup, writer_under};
ghost use Rattle.csv_load.specs.Written.{text_of_rows, value_field};

use csv::{ByteRecord, Writer, WriterBuilder};
use itoa::Buffer;
use mv_model::{NoMemory, Value};
use std::alloc::{AllocError, Global};

/// Appends the field that a value is written as.
fn push_value(fields: &mut ByteRecord, value: &Value) -> Result<(), NoMemory>
    requires { partial_of fields.old ≡ [] }
    ensures appended { OnOk result (fields_of fields.new ≡ fields_of fields.old ++ value_field value.now ∷ []) }
    ensures whole { OnOk result (partial_of fields.new ≡ []) }
{
    match value {
        Value::Int(number) => fields.push_field(Buffer::new().format(*number).as_bytes()),
        Value::Text(text) => fields.push_field(text.as_str().as_bytes()),
    }
}

/// Makes the fields of the record those of the row.
fn set_fields(fields: &mut ByteRecord, row: &[Value]) -> Result<(), NoMemory>
    ensures { OnOk result (fields_of fields.new ≡ map value_field row.now) }
{
    fields.clear();
    for value in row {
        push_value(fields, value)?;
    }
    Ok(())
}

/// A writer of records into a list in memory, each of any number of fields and as the `csv` crate writes it by default.
fn row_writer(alloc: Global) -> Writer<Vec<u8>>
    ensures setup { writer_setup result ≡ with_flexible default_writer true }
    ensures under { (writer_under result).items ≡ [] }
    ensures pending { writer_pending result ≡ [] }
    ensures fields { fields_written result ≡ 0 }
    ensures wrote { has_written result ≡ false }
{
    WriterBuilder::new()
        .flexible(true)
        .from_writer(Vec::new(alloc))
}

/// The rows as records, one after the other, as the `csv` crate writes them.
pub fn rows_text(alloc: Global, rows: &[&[Value]]) -> Result<Vec<u8>, NoMemory>
    ensures { IfOk result (λ text. text.items ≡ text_of_rows (map (λ row. row.now) rows.now)) }
{
    let mut writer = row_writer(alloc);
    let mut record = ByteRecord::new(alloc);
    for row in rows {
        set_fields(&mut record, row)?;
        // A list in memory takes every byte: what fails is a request for memory.
        if writer.write_byte_record(&record).is_err() {
            return Err(AllocError);
        }
    }
    writer.into_inner().map_err(|_| AllocError)
}
