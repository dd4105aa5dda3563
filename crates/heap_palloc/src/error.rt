ghost use Rattle.std.specs.Prelude.{◌≡◌};
ghost use Rattle.heap_palloc.specs.declared.error.AllocError.TheVariants.{NoMemory as OutOfMemory};

use pm_model::NoMemory;
use thiserror::Error;

/// Why nothing was allocated.
#[derive(Clone, Copy, Debug, PartialEq, Eq, Error)]
pub enum AllocError {
    /// So many neighbouring free pages are needed, and the longest run of free pages has only so many.
    #[error("the heap is full: {need} pages are needed, and the longest free run has {largest}")]
    Full { need: u32, largest: u32 },
    /// A request for memory was refused.
    #[error("out of memory")]
    NoMemory,
}

impl From<NoMemory> for AllocError {
    ghost from_gives = { λ _ error. error ≡ OutOfMemory };

    fn from(_refused: NoMemory) -> AllocError {
        AllocError::NoMemory
    }
}
