//! Tests of the engine on the stage's one table: its replies, and the images that it opens or refuses.
//!
//! Layer: tests and measurements, above `engine_core` and `stage_calls`. No crate stands on it.
//!
//! - `replies` is runs of statements, each with how many actions it plays and what it is answered: a transaction,
//!   refusals, a full table, a full object, the last commit number.
//! - `images` is stage images in which words were changed, with the rule and the place by which they are refused, or
//!   the words that opening leaves.
//!
//! Cuts are tried by `power_cuts`.
#![tactic(auto)]

#[cfg(test)]
mod images;
#[cfg(test)]
mod replies;
