ghost use Rattle.std.specs.Prelude.{◌≡◌, ◌≤◌, length, IfOk};
ghost use Rattle.csv.specs.Records.{fields_of};
ghost use Rattle.mv_model.specs.declared.shape.Kind.TheVariants as kind;
ghost use Rattle.csv_load.specs.Rows.{field_value, row_of};
ghost use Rattle.csv_load.specs.Outcome.{Gives};

use crate::LoadError;
use csv::ByteRecord;
use mv_model::limits::MAX_TEXT_BYTES;
use mv_model::{Column, Kind, NoMemory, Text, Value, Values};
use sf_value::read_int_bytes;
use std::alloc::Global;
use std::str;

/// The text that a field is, if it is one.
fn read_text(alloc: Global, field: &[u8]) -> Result<Option<Value>, NoMemory>
    ensures { IfOk result (λ value. value ≡ field_value kind.Text field.now) }
{
    if field.len() > MAX_TEXT_BYTES {
        return Ok(None);
    }
    match str::from_utf8(field) {
        Ok(text) => Ok(Some(Value::Text(Text::from_str(alloc, text)?))),
        Err(_) => Ok(None),
    }
}

/// The value that a field is in a column of this kind, if it is one.
fn read_field(alloc: Global, kind: Kind, field: &[u8]) -> Result<Option<Value>, NoMemory>
    ensures { IfOk result (λ value. value ≡ field_value kind field.now) }
{
    match kind {
        Kind::Int => Ok(read_int_bytes(field).map(Value::Int)),
        Kind::Text => read_text(alloc, field),
    }
}

/// The values of a record, which has this number, in the columns.
pub(crate) fn read_row(
    alloc: Global,
    nth: u32,
    columns: &[Column],
    fields: &ByteRecord,
) -> Result<Values, LoadError>
    requires { length columns.now ≤ 16 }
    ensures { Gives (λ row. row) result (row_of nth columns.now (fields_of fields.now)) }
{
    if fields.len() != columns.len() {
        return Err(LoadError::WrongCount { nth });
    }
    let mut values = Values::with_room(alloc, columns.len() as u32)?;
    for (i, column) in columns.iter().enumerate() {
        let field = fields.get(i).unwrap();
        match read_field(alloc, column.kind, field)? {
            Some(value) => values.push(value),
            None => {
                return Err(LoadError::BadField {
                    nth,
                    column: i as u8 + 1,
                });
            }
        }
    }
    Ok(Values::from(values))
}
