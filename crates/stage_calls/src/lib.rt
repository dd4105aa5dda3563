//! Statements on the stage's one table, and a core that is stepped through them: what tests and measurements share.
//!
//! Layer: tests and measurements, above `engine_core`. `engine_tests`, `power_cuts` and `bench` stand on it. It goes
//! with the stage image.
//!
//! State: none. The core is lent, and `specs/Calls` has the call that a statement is.
//!
//! Calls in the order of use: `fresh_core`; `say` for each statement, which steps the core to the reply or to a power
//! cut; `call` where a test asks for the call alone.
#![tactic(auto)]

mod stepping;

pub use stepping::{Statement, call, fresh_core, say};
