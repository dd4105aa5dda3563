ghost use Rattle.std.specs.Prelude.{◌≡◌};
ghost use Rattle.catalog.specs.declared.error.CreateError.TheVariants.{NoMemory as OutOfMemory};
ghost use Rattle.catalog.specs.Calls.{create_error};

use heap_palloc::AllocError;
use pm_model::NoMemory;
use thiserror::Error;

/// Why no table was created.
#[derive(Clone, Copy, Debug, PartialEq, Eq, Error)]
pub enum CreateError {
    /// A published table has the name.
    #[error("the table exists")]
    TableExists,
    /// All 32 tables are published.
    #[error("there are too many tables")]
    TooManyTables,
    /// So many neighbouring free pages are needed, and the longest run of free pages has only so many.
    #[error("the heap is full: {need} pages are needed, and the longest free run has {largest}")]
    Full { need: u32, largest: u32 },
    /// A request for memory was refused.
    #[error("out of memory")]
    NoMemory,
}

impl From<NoMemory> for CreateError {
    ghost from_gives = { λ _ error. error ≡ OutOfMemory };

    fn from(_refused: NoMemory) -> CreateError {
        CreateError::NoMemory
    }
}

impl From<AllocError> for CreateError {
    ghost from_gives = { λ refused error. error ≡ create_error refused };

    fn from(refused: AllocError) -> CreateError {
        match refused {
            AllocError::Full { need, largest } => CreateError::Full { need, largest },
            AllocError::NoMemory => CreateError::NoMemory,
        }
    }
}
