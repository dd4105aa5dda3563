//! Tests of the multiversion table: worked runs, as the checker computes them and as the program plays them.
//!
//! Layer: tests and measurements, above `mv_model`, which knows no image. No crate stands on it.
//!
//! - `specs/WorkedRuns` has ten runs, each call beside its reply, and `specs/Turns` the states in which they begin.
//! - `worked_runs` states that these replies are due, which the check computes from the definitions.
//! - `replays` plays two runs of two sessions by `answer` and `next`, with each call and with a copy of it.
//! - `texts` copies rows and predicates that have texts.
#![tactic(auto)]

#[cfg(test)]
mod replays;
#[cfg(test)]
mod texts;
#[cfg(test)]
mod worked_runs;
