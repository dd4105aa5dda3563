//! What the plans of a transaction keep of a whole image that fits together, whatever else is half done in it.
//!
//! Layer: what an image shows, and how it opens, above `opening_steps` and `txn_object`, whose plans it speaks of. No
//! other crate stands on it yet.
//!
//! State: none. The laws are of the words of an image that fits together (`Fits` of `shown_state`): lanes may be at
//! work, splits, tables and texts half done, and other transactions open.
//!
//! Invariants, of each cut of a plan and of its end:
//! 1. the image still fits together, so opening mends it;
//! 2. it shows the same, or from an entry on that a row was given out.
//!
//! Calls: `begin_law`, `entry_law`, `undo_law` (the first part of an abort, behind which a retire may follow),
//! `retire_law` (a transaction of which nothing needs to be undone is closed, and its object cleared), `clear_law` (the
//! second half of that by itself). Codes and a commit have no law of this form yet. Of allocations and freeings
//! `blocks_show_law` has the second invariant alone.
#![tactic(auto)]

mod laws;

pub use laws::{begin_law, blocks_show_law, clear_law, entry_law, retire_law, undo_law};
