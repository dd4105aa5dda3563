//! Common ground of tests and measurements, so that each stands once: images that are built word by word, plans that
//! are played whole, a heap on a formatted image, a transaction object that is begun and extended, and an index of
//! leaves.
//!
//! Layer: tests and measurements, at its bottom, above `heap_palloc` and `txn_object`, whose plans it plays, and
//! `fp_inner`. On it stand `heap_tests`, `object_tests`, `tree_tests`, `opening_tests`, `power_cuts` and `bench`.
//!
//! State: none. A memory, a heap or an image is made and handed on, or is lent.
//!
//! Calls in the order of use: `changed_image`, or `set_words` with `one_table`, for words; `formatted_memory` or
//! `formatted_heap` for a device at rest; `begin` and `extend` for the object of session 1; `play_whole` for any plan;
//! `even_index` for the leaves of a tree. They try no cut.
#![tactic(auto)]

mod heap;
mod images;
mod indexes;
mod objects;
mod playing;

pub use heap::formatted_heap;
pub use images::{TABLE, changed_image, formatted_memory, one_table, set_words};
pub use indexes::even_index;
pub use objects::{begin, extend};
pub use playing::play_whole;
