ghost use Rattle.std.specs.Prelude.{◌≡◌};
ghost use Rattle.txn_object.specs.declared.error.ExtendError.TheVariants.{NoMemory as OutOfMemory};
ghost use Rattle.txn_object.specs.Calls.{extend_error};

use heap_palloc::AllocError;
use pm_model::NoMemory;
use thiserror::Error;

/// Why a transaction object wasn't extended.
#[derive(Clone, Copy, Debug, PartialEq, Eq, Error)]
pub enum ExtendError {
    /// All 32 segments are ready.
    #[error("the write set is full")]
    WriteSetFull,
    /// So many neighbouring free pages are needed, and the longest run of free pages has only so many.
    #[error("the heap is full: {need} pages are needed, and the longest free run has {largest}")]
    Full { need: u32, largest: u32 },
    /// A request for memory was refused.
    #[error("out of memory")]
    NoMemory,
}

impl From<NoMemory> for ExtendError {
    ghost from_gives = { λ _ error. error ≡ OutOfMemory };

    fn from(_refused: NoMemory) -> ExtendError {
        ExtendError::NoMemory
    }
}

impl From<AllocError> for ExtendError {
    ghost from_gives = { λ refused error. error ≡ extend_error refused };

    fn from(refused: AllocError) -> ExtendError {
        match refused {
            AllocError::Full { need, largest } => ExtendError::Full { need, largest },
            AllocError::NoMemory => ExtendError::NoMemory,
        }
    }
}
