//! The halves of a full leaf that is split: its slots in the order of their keys, the bitmap of some of them, and the
//! fingerprints of their keys, in a column of integers or of texts.
//!
//! Layer: what an image shows, and how it opens, above `text_block`, by which it reads texts, and beside `tree_cuts`. It
//! gives exactly the words of which the mending of a split log is made (`shown_state`). No library stands on it yet: it
//! is for the step of opening that mends split logs.
//!
//! State: none. Each call reads the words as they are.
//!
//! Calls in the order of use: `slots_by_key`; of its first half `bitmap_of`, of its second half `prints_of`. `key_place`
//! says where the key word of a slot stands.
//!
//! Equal keys stay in the order of their slots, as in no sound leaf there are any: so the result is that of the
//! definition on every image whose key words name texts, where the column has texts.
#![tactic(auto)]

mod halves;
mod keys;

pub use halves::{bitmap_of, prints_of, slots_by_key};
pub use keys::key_place;
pub use pm_model::NoMemory;
