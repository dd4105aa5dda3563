//! The table state that the words of an image stand for, and what opening makes of them.
//!
//! Layer: what an image shows, above the structures. It has definitions and laws, and no code: `pmem_recover` plays the
//! steps, `img_check` tries the rules.
//!
//! - `specs/LogicalState` has the state: the published tables, and the commits with the rows that they created and
//!   ended.
//! - `specs/Mending` has the steps of opening as parts made from the words before each, and the words after them all.
//! - `specs/Recoverable` has the images that opening mends without changing what they show, and `specs/Fits` says the
//!   same word by word, with no opening in it.
//!
//! What holds of each image that a cut leaves (`fits_law`):
//! 1. what fits, opening mends to a sound image that shows the same state;
//! 2. each cut of a step of opening fits again;
//! 3. what fits and needs no mending is sound.
//!
//! Beside it: `formatted_law`, `owner_law`, `walk_law`, `commits_law`, `reads_law` (words that no structure reads
//! change nothing), `opening_law`, and two images written out word by word (`worked_images_law`).
#![tactic(auto)]

mod commit_laws;
mod laws;

pub use commit_laws::{commits_law, worked_images_law};
pub use laws::{fits_law, formatted_law, opening_law, owner_law, reads_law, walk_law};
