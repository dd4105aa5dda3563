//! Tests of the rows that texts of CSV are, and of the run that a number stands for.
//!
//! Layer: tests and measurements, above `csv_load` and `drill`. No crate stands on it.
//!
//! - `rows` is tables of texts with the rows that they are or the error that refuses them, and a text of 20,000 records
//!   that is read, written and read again.
//! - `runs` has the script of 7 and its first picks, as `examples/drill_script` prints them, a move for each way in
//!   which sessions can stand, and summaries.
#![tactic(auto)]

#[cfg(test)]
mod rows;
#[cfg(test)]
mod runs;
