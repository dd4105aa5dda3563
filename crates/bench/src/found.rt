// What a measure finds, so that a reader sees that its work was done.
use heap_palloc::AllocError;
use img_check::CheckError;
use pm_image::ImageError;
use thiserror::Error;

#[derive(Clone, Copy)]
pub(crate) enum Found {
    /// The live blocks of an image, and how often it was found sound.
    Sound {
        blocks: u32,
        times: u64,
    },
    /// The statements of a session, the actions that they played, and the rows that they created.
    Stepped {
        statements: u32,
        actions: u64,
        rows: usize,
    },
    /// A sum over words that were loaded.
    Checksum(u64),
    /// How many actions were played, and the sum of the words of all owners.
    Played {
        actions: u64,
        sum: u64,
    },
    /// A sum over what each round made.
    Sum(u64),
}

/// Why a measure wasn't taken to its end.
#[derive(Clone, Copy, Debug, Error)]
pub(crate) enum Failed {
    #[error("{0}")]
    Check(CheckError),
    #[error("{0}")]
    Heap(AllocError),
    #[error("{0}")]
    Image(ImageError),
    #[error("out of memory")]
    NoMemory,
}
