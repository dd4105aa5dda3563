// The places of the stage image beside those that every image has, and the key words of its values.
ghost use Rattle.std.specs.Prelude.{◌≡◌, ◌<◌};
ghost use Rattle.engine_core.specs.Stage.{high_at, born_at, ended_at, value_at};
ghost use Rattle.engine_core.specs.LogicalState.{integer_of, key_word_of};

use pm_model::Place;

/// The rows for which the table has place.
pub(crate) const STAGE_ROWS: u32 = 4096;

const SIGN_BIT: u64 = 1 << 63;

/// How many rows commits have used up.
pub(crate) fn high() -> Place
    ensures { result.0 ≡ high_at }
{
    Place(517)
}

/// The number of the commit that created a row.
pub(crate) fn born(row: u32) -> Place
    requires { row < 4096 }
    ensures { result.0 ≡ born_at row }
{
    Place(2048 + row)
}

/// The number of the commit that ended a row.
pub(crate) fn ended(row: u32) -> Place
    requires { row < 4096 }
    ensures { result.0 ≡ ended_at row }
{
    Place(6144 + row)
}

/// The key word of the value of a row.
pub(crate) fn value(row: u32) -> Place
    requires { row < 4096 }
    ensures { result.0 ≡ value_at row }
{
    Place(10240 + row)
}

/// The key word of an integer: its 64 bits with the sign bit flipped, so that words are in the order of the integers.
pub(crate) fn key_word(integer: i64) -> u64
    ensures spells { integer_of result ≡ integer }
    ensures word { result ≡ key_word_of integer }
{
    integer.cast_unsigned().wrapping_add(SIGN_BIT)
}

/// The integer that a key word spells.
pub(crate) fn integer(word: u64) -> i64
    ensures { result ≡ integer_of word }
{
    word.wrapping_add(SIGN_BIT).cast_signed()
}
