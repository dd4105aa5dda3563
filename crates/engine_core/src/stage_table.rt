// The one table of a stage image.
ghost use Rattle.std.specs.Prelude.{◌≡◌, codes};
ghost use Rattle.engine_core.specs.LogicalState.{columns};

use arrayvec::ArrayVec;
use mv_model::{Column, Kind, Name, Shape};

/// The name of the one table.
pub(crate) fn table_name() -> Name
    ensures { result ≡ codes "t" }
{
    let Some(name) = Name::read("t") else {
        unreachable!()
    };
    name
}

fn column_name() -> Name
    ensures { result ≡ codes "a" }
{
    let Some(name) = Name::read("a") else {
        unreachable!()
    };
    name
}

/// The columns of the one table.
pub(crate) fn stage_shape() -> Shape
    ensures { result ≡ columns }
{
    let mut list = ArrayVec::new();
    list.push(Column {
        name: column_name(),
        kind: Kind::Int,
    });
    let Some(shape) = Shape::of(list) else {
        unreachable!()
    };
    shape
}
