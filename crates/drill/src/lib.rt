//! A run that a number stands for: its script, the order in which its sessions go on, and its summary.
//!
//! Layer: texts, above `script_text`, whose lines it makes. It steps no engine: who drives a run asks it for the next
//! move. No command does yet.
//!
//! State: none. A script, a pick and a move are functions of the number and the turn, and of how the sessions stand.
//!
//! Invariants (`laws`):
//! 1. a script is its creation and exactly so many statements of the sessions 1 to 4, each its session's next;
//! 2. a `begin` stands exactly where the session has no transaction open;
//! 3. a move fits how the sessions stand, and the run is over only where all are done.
//!
//! Calls in the order of use: `script_of`; `move_at` for each turn, with `pick`, and `is_cut_turn` where cuts are
//! tried; `summary_of` and `summary_text` at the end. `docs/DRILL.md` has the numbers.
#![tactic(auto)]

mod calls;
mod draft;
mod draws;
pub mod laws;
mod schedule;
mod script;
mod summary;
mod table;

pub use schedule::{Move, Standing, move_at, pick};
pub use script::script_of;
pub use summary::{Counted, Summary, count_replies, is_cut_turn, summary_of, summary_text};
