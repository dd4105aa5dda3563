//! Arrays of words that grow by chunks, whose words never move.
//!
//! Layer: structures over words, above `heap_palloc`. The arrays of a table's rows, codes and dictionaries are such.
//! `pmem_recover` asks it where the stamps of a row stand.
//!
//! Layout: the header of an array has 16 words: how many chunks are published, 12 chunk pointers, and three words of 0.
//! Chunk i has 1, 2, 4, 8, 16, 32 pages for i from 0 to 5, and 32 pages from 6 on. A chunk whose pointer stands behind
//! the published ones belongs to the array, and its words mean nothing yet.
//!
//! Invariants:
//! 1. each published pointer names a live block of its chunk's size, and at most one pointer stands behind them;
//! 2. a word that was published has its place for ever;
//! 3. the words of a chunk are 0 when it is published.
//!
//! Calls in the order of use: `plan_grow` until `capacity` has the index, `place_of` for each word.
//!
//! What a cut can leave: the capacity before, with or without a chunk that the array owns and has not published (the
//! next growth takes it), or the capacity after (`growth_law`).
#![tactic(auto)]

mod chunks;
mod error;
mod grow;
mod laws;

pub use chunks::{capacity, place_of};
pub use error::GrowError;
pub use grow::plan_grow;
pub use laws::{array_law, growth_law, limits_law, table_array_law};
pub use pm_model::{MAX_CHUNKS, NoMemory};
