//! Tests of commands from words and bytes to bytes, and of the streams under them.
//!
//! Layer: tests and measurements, above `session_serve` and `io_edge`. No crate stands on it. The program over real
//! files is tried by `.ci/calls` and `examples/check`.
//!
//! - `calls` has `run` over streams in memory, of which listed calls fail.
//! - `words`, `scripts` and `statuses` have commands with what they print, write and answer.
//! - `streams` has the adapters over std, and the limit of a source.
//!
//! Cuts: `cuts` cuts a worked script after chosen actions and opens the image again. Each cut is `power_cuts`'.
#![tactic(auto)]

#[cfg(test)]
mod calls;
#[cfg(test)]
mod cuts;
#[cfg(test)]
mod scripts;
#[cfg(test)]
mod statuses;
#[cfg(test)]
mod streams;
#[cfg(test)]
mod words;
