//! The core of the store: sessions that step over the words of a device, one action or one decision at a time.
//!
//! Layer: the engine, above `stage_view` and `built_calls`. `session_serve` steps it through a script. Today it works
//! on a stage image (`docs/STAGE.md`) with one session.
//!
//! State (`CoreState`): the device, the words as they were opened, the history since, and the call in flight with what
//! is left of its plan.
//!
//! Invariants (`IsKept`):
//! 1. the history is legal from the state that the opened words stand for;
//! 2. the state that it leaves is the one that the words stand for once the plan in play was played;
//! 3. each image that a power cut leaves, now and after each action that is left, fits together and recovers what it
//!    may;
//! 4. what was played are the first actions of the plans of the history and of the commit that is due;
//! 5. only the last entry may wait for its reply.
//!
//! Calls in the order of use: `stage_fresh` for a new image; `Core::from_memory`, which opens it; `start` with a
//! session's next call, and `step` until it is replied; `history`, `memory` and `played` between any two.
//!
//! What a cut can leave: the table in `docs/STAGE.md`. `opening_law` says what each cut of an opening leaves.
#![tactic(auto)]

mod decision;
mod flight;
mod laws;
mod layout;
mod opening;
mod plans;
mod rules;
mod stage;
mod stage_table;
mod store_core;
mod transactions;

pub use flight::Step;
pub use laws::opening_law;
pub use pm_model::NoMemory;
pub use stage::stage_fresh;
pub use store_core::{Core, OpenError};
