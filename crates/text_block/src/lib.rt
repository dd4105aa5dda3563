//! Texts in blocks of the heap: written by a plan of one part, read back, and compared.
//!
//! Layer: what an image shows, and how it opens, beside `fp_tree`: a structure over words, above `pm_model` and
//! `mv_model`, whose words are packed as `shown_state` says. Where a block is allocated, and which word owns it, is the
//! caller's. `leaf_halves` reads the texts of a leaf by it.
//!
//! Layout: the block of a text has its length in bytes in word 0, at most 2,000, and its bytes packed behind it, eight
//! in a word, the first one lowest. The last word is filled up with 0.
//!
//! Invariants, of a text block that is read:
//! 1. its length is at most 2,000, and all its words lie in one segment of the image;
//! 2. its bytes are UTF-8.
//!
//! Calls in the order of use: `words_of` for the size of the block; `plan_write`, or `push_write` where the plan has
//! room; once it was played `read` for the text, or `read_bytes` for its bytes; `compare` for its order.
//!
//! What a cut can leave: each word of the block old or new, so nobody may read it before its part was played, and no
//! word outside it changed (`write_law`).
#![tactic(auto)]

mod laws;
mod reading;
mod writing;

pub use laws::{block_law, write_law};
pub use pm_model::NoMemory;
pub use reading::{compare, read, read_bytes};
pub use writing::{plan_write, push_write, words_of};
