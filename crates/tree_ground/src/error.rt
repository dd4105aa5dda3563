use catalog::CreateError;
use fp_tree::{AllocError, NoMemory};
use thiserror::Error;

/// Why there is no ground for a test or a measurement.
#[derive(Clone, Copy, Debug, PartialEq, Eq, Error)]
pub enum GroundError {
    /// The table wasn't created.
    #[error(transparent)]
    Table(#[from] CreateError),
    /// A leaf wasn't allocated.
    #[error(transparent)]
    Leaf(#[from] AllocError),
    /// A request for memory was refused.
    #[error("out of memory")]
    NoMemory,
    /// The image has other words than it is to have, or a key that is to be put in is there.
    #[error("the ground is another one")]
    Unexpected,
}

impl From<NoMemory> for GroundError {
    fn from(_refused: NoMemory) -> GroundError {
        GroundError::NoMemory
    }
}
