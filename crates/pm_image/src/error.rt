//! Why bytes are no image, and want of memory.

ghost use Rattle.std.specs.Prelude.{◌≡◌};
ghost use Rattle.pm_image.specs.declared.error.ImageError.TheVariants as errors;

use std::alloc::AllocError;
use thiserror::Error;

/// A request for memory was refused.
pub type NoMemory = AllocError;

/// The first fault of the bytes, from left to right.
#[derive(Clone, Copy, Debug, PartialEq, Eq, Error)]
pub enum ImageError {
    #[error("bad magic")]
    BadMagic,
    #[error("bad version")]
    BadVersion,
    /// The segments aren't 1 to 128, or more pages are stored than these have.
    #[error("bad size")]
    BadSize,
    /// The page number of item `at` isn't above the one before or isn't below the number of pages,
    /// or its words are all 0.
    #[error("bad page {at}")]
    BadPage { at: u32 },
    /// The bytes end inside a field or an item.
    #[error("truncated")]
    Truncated,
    /// Bytes follow the last item, from the offset `at` on.
    #[error("trailing at {at}")]
    Trailing { at: u32 },
    #[error("no memory")]
    NoMemory,
}

impl From<AllocError> for ImageError {
    ghost from_gives = { λ _ e. e ≡ errors.NoMemory };

    fn from(_e: AllocError) -> ImageError {
        ImageError::NoMemory
    }
}
