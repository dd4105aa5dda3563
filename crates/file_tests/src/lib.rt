//! Tests of the file writer: each call of a place fails in turn, and the real files of a folder.
//!
//! Layer: tests and measurements, above `whole_file`. No crate stands on it.
//!
//! - `fake_place` is a place in memory of which one kind of call fails.
//! - `tests` compares the old bytes after each such failure, and writes real files: behind a link, where there was
//!   none, beside what a killed run left, and where another run has the file.
//!
//! A kill in the middle of a write is tried over the program, by `examples/kills`.
#![tactic(auto)]

#[cfg(test)]
mod fake_place;
#[cfg(test)]
mod tests;
