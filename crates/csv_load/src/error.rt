ghost use Rattle.std.specs.Prelude.{◌≡◌};

use std::alloc::{AllocError, AllocFailed};
use thiserror::Error;

/// Why a text gives no rows. docs/CSV.md, "Refusals".
#[derive(Clone, Copy, Debug, PartialEq, Eq, Error)]
pub enum LoadError {
    /// The record, counted from 1, has another number of fields than there are columns.
    #[error("record {nth} has another number of fields")]
    WrongCount { nth: u32 },
    /// The field of the record is no value of its column; both are counted from 1.
    #[error("record {nth} has no value for column {column}")]
    BadField { nth: u32, column: u8 },
    #[error("no memory")]
    NoMemory,
}

impl From<AllocError> for LoadError {
    ghost use Rattle.csv_load.specs.declared.error.LoadError.TheVariants as error;

    ghost from_gives = { λ _ made. made ≡ error.NoMemory };

    fn from(_error: AllocError) -> LoadError {
        LoadError::NoMemory
    }
}

impl<T: Drop> From<AllocFailed<T>> for LoadError {
    ghost use Rattle.csv_load.specs.declared.error.LoadError.TheVariants as error;

    ghost from_gives = { λ _ made. made ≡ error.NoMemory };

    fn from(_error: AllocFailed<T>) -> LoadError {
        LoadError::NoMemory
    }
}
