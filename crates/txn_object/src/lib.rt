//! A session's transaction object: the words that say whether its transaction is open, what it wrote, and whether it
//! was committed.
//!
//! Layer: structures over words, above `heap_palloc`. Session k has object k - 1. What the entries mean for rows is
//! `whole_view`'s; `pmem_recover` undoes or closes what a cut leaves open.
//!
//! Layout: an object has 64 words: its state (0 idle, 1 open), its commit word, how many segments are ready, the
//! pointer to the first segment, and 60 entries. A segment is a block of 256 words, the pointer to the next one and 255
//! entries; there are 32 at most. An entry has a kind, a table and a row in one word, and is never 0.
//!
//! Invariants:
//! 1. no entry follows a word that is 0 (`NoEntryFollowsZero`);
//! 2. a ready segment is a live block that the object owns, and so is at most one more behind them;
//! 3. an idle object of a sound image has no entry and no commit word;
//! 4. the place of an entry is read anew each time: nothing is kept beside the words.
//!
//! Calls in the order of use: `plan_begin`; `free_entries`, and `plan_extend` where none is free; `push_entry` for each
//! row that is written; `entries` at a commit or an abort; `retire_room` and `push_retire` at the end of its plan.
//!
//! What a cut can leave: the words before a begin or an entry, or after it (`begin_law`, `entry_law`); the ready
//! segments before or after, and perhaps one that is owned and not ready, which the next extension takes
//! (`extension_law`); an idle object with some words cleared, which opening clears (`retire_law`).
#![tactic(auto)]

mod entry;
mod error;
mod extend;
mod laws;
mod limits;
mod object;
mod owned;
mod reading;
mod segments;

pub use entry::{Entry, EntryKind, EntryList};
pub use error::ExtendError;
pub use extend::plan_extend;
pub use laws::{begin_law, entry_law, extension_law, object_law, retire_law};
pub use limits::limits_law;
pub use object::{plan_begin, push_entry, push_retire, retire_room};
pub use owned::owned_segments_law;
pub use pm_model::NoMemory;
pub use reading::{entries, free_entries};
pub use segments::object_of;
