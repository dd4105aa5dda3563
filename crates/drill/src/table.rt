// The table of the script.
ghost use Rattle.std.specs.Prelude.{◌≡◌, IfOk};
ghost use Rattle.drill.specs.Calls.{columns, creation, number_column, table, text_column};

use arrayvec::ArrayVec;
use mv_model::{BoxedShape, Call, Column, Kind, Name, NoMemory, Shape};
use std::alloc::Global;

pub(crate) fn table_name() -> Name
    ensures { result ≡ table }
{
    let Some(name) = Name::read("t") else {
        unreachable!()
    };
    name
}

pub(crate) fn number_name() -> Name
    ensures { result ≡ number_column }
{
    let Some(name) = Name::read("a") else {
        unreachable!()
    };
    name
}

fn text_name() -> Name
    ensures { result ≡ text_column }
{
    let Some(name) = Name::read("b") else {
        unreachable!()
    };
    name
}

fn shape() -> Shape
    ensures { result ≡ columns }
{
    let mut list = ArrayVec::new();
    list.push(Column {
        name: number_name(),
        kind: Kind::Int,
    });
    list.push(Column {
        name: text_name(),
        kind: Kind::Text,
    });
    let Some(shape) = Shape::of(list) else {
        unreachable!()
    };
    shape
}

/// The creation of the table.
pub(crate) fn creation(alloc: Global) -> Result<Call, NoMemory>
    ensures { IfOk result (λ call. call ≡ creation) }
{
    Ok(Call::Create {
        table: table_name(),
        shape: BoxedShape::of(alloc, shape())?,
    })
}
