//! The words of an image as the bytes of a file, and back.
//!
//! Layer: texts, at its bottom. It knows no rule of an image: any words of whole segments have a file.
//!
//! Layout: numbers are little-endian. The file begins with `SOFORTPM` and three numbers of four bytes: the version 1,
//! the number of segments and the number of stored pages. Then each stored page has its number in four bytes and its
//! 512 words in eight bytes each.
//!
//! Invariants of a file:
//! 1. the numbers of the pages rise, and are below the image's pages;
//! 2. a page of zeros isn't stored;
//! 3. so each image has one file, and each file one image (`one_spelling`).
//!
//! Calls: `encode`, and `decode`, whose error is the first fault from the left.
#![tactic(auto)]

mod decoding;
mod encoding;
mod error;
mod laws;
mod layout;

pub use decoding::decode;
pub use encoding::encode;
pub use error::{ImageError, NoMemory};
pub use laws::{faultless_bytes, no_fault, one_spelling};
