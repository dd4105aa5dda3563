//! The transaction objects of a stage image, which have no segments: a transaction has the 60 entries of its object.
//!
//! Layer: structures over words, above `txn_object`, whose entries it has. `engine_core` plays its plans; it goes with
//! the stage image.
//!
//! Layout: an object has 64 words: its state (0 idle, 1 open), its commit word, two words that stay 0, and 60 entries.
//! Session k has object k - 1.
//!
//! Invariants:
//! 1. no entry follows a word that is 0 (`NoEntryFollowsZero`);
//! 2. an idle object of a sound image has no entry and no commit word.
//!
//! Calls in the order of use: `plan_begin`; `free_entries`; `push_entry` for each row that is written; `entries` at a
//! commit; `retire_actions` and `push_retire` at the end of its plan.
//!
//! What a cut can leave: the words before a begin or an entry, or after it; an idle object with some words cleared,
//! which opening clears (`begin_law`, `entry_law`, `retire_law`).
#![tactic(auto)]

mod laws;
mod object;

pub use laws::{begin_law, entries_law, entry_law, retire_law};
pub use object::{entries, free_entries, push_entry, push_retire, retire_actions};
pub use pm_model::NoMemory;
pub use txn_object::plan_begin;
