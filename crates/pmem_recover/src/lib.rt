//! Opening an image that a power cut left: which images are refused, and the plans that mend the others.
//!
//! Layer: what an image shows, and how it opens, above the structures and `image_rules`. What the steps come to is said
//! in `shown_state`. No library stands on it yet: `power_cuts` opens images by its steps.
//!
//! State: none. Each call reads the words as they are, so an opening that is cut begins again from the first step.
//!
//! Invariants, from step to step:
//! 1. the rules that every image keeps that a power cut can leave, hold after each cut;
//! 2. what the image shows stays;
//! 3. a store that would leave its word as it is isn't made.
//!
//! Calls in the order of use, each of the `next_` ones from 0 on until it gives none. It gives the first number from
//! one on that has something to mend, with its plan:
//! - `check_entry` tries the rules that every image keeps that a power cut can leave.
//! - `next_lane` plans the mending of the lanes, one after the other.
//! - `next_slot` frees the block of a table that was being created, and `next_last` raises the last commit number.
//! - `next_undo` takes back the transactions that are open and have no commit word, `next_idle` closes those that have
//!   one, and `next_clear` clears the entries and the commit words.
//! - `next_version` brings an image of version 1 to version 2. What a power cut leaves of its plan shows the same
//!   tables and columns, and is mended to the same words (`version_law`).
//!
//! What a cut can leave: of the mending of a lane words that are mended to the same words (`lane_opening_law`); of the
//! other steps the table stands in `docs/OPENING.md`.
#![tactic(auto)]

mod change;
mod clear;
mod entries;
mod entry;
mod error;
mod lanes;
mod laws;
mod layout;
mod objects;
mod part;
mod slot;
mod undo;
mod version;

pub use clear::next_clear;
pub use entry::check_entry;
pub use error::EntryError;
pub use lanes::next_lane;
pub use laws::{fault_law, lane_opening_law, version_law};
pub use objects::{next_idle, next_last};
pub use pm_model::NoMemory;
pub use slot::next_slot;
pub use undo::next_undo;
pub use version::next_version;
