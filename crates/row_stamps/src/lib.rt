//! The stamps of a row: which commit created it, which one ended it, and who sees it.
//!
//! Layer: structures over words, above `pm_model`. Where a row's words stand is the caller's. No library stands on it
//! yet.
//!
//! Layout: a row has two words. The first is 0 before the row is created, then the number of the commit that created
//! it, and all ones where that transaction was undone. The second is 0, or the number of the commit that ended the row.
//!
//! Invariants, of the stamps of a sound image:
//! 1. each is 0, or the number of a commit; the first may be that of a dead row;
//! 2. the commit that ended a row isn't before the one that created it.
//!
//! Calls in the order of use: `push_stamp` for each entry of a commit, `push_dead` for each row that an abort leaves;
//! `visible` for each row that is read. `stamps_law`: the rows so seen are those that the commits created and did not
//! end.
#![tactic(auto)]

mod laws;
mod stamps;

pub use laws::stamps_law;
pub use stamps::{push_dead, push_stamp, visible};
