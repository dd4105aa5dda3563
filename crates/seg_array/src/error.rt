ghost use Rattle.std.specs.Prelude.{◌≡◌};
ghost use Rattle.seg_array.specs.declared.error.GrowError.TheVariants.{NoMemory as OutOfMemory};
ghost use Rattle.seg_array.specs.Calls.{grow_error};

use heap_palloc::AllocError;
use pm_model::NoMemory;
use thiserror::Error;

/// Why an array didn't grow.
#[derive(Clone, Copy, Debug, PartialEq, Eq, Error)]
pub enum GrowError {
    /// All 12 chunks are published.
    #[error("the array is full")]
    ArrayFull,
    /// So many neighbouring free pages are needed, and the longest run of free pages has only so many.
    #[error("the heap is full: {need} pages are needed, and the longest free run has {largest}")]
    Full { need: u32, largest: u32 },
    /// A request for memory was refused.
    #[error("out of memory")]
    NoMemory,
}

impl From<NoMemory> for GrowError {
    ghost from_gives = { λ _ error. error ≡ OutOfMemory };

    fn from(_refused: NoMemory) -> GrowError {
        GrowError::NoMemory
    }
}

impl From<AllocError> for GrowError {
    ghost from_gives = { λ refused error. error ≡ grow_error refused };

    fn from(refused: AllocError) -> GrowError {
        match refused {
            AllocError::Full { need, largest } => GrowError::Full { need, largest },
            AllocError::NoMemory => GrowError::NoMemory,
        }
    }
}
