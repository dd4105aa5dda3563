//! Tests of transaction objects, of those of a stage image, and of the tables of a catalog and their arrays: what no
//! clause says of them.
//!
//! Layer: tests and measurements, above `txn_object`, `stage_object`, `catalog` and `seg_array`, on the ground of `test_ground`. No
//! crate stands on it.
//!
//! - `segments` extends an object until it has its 32 segments, and has the places of its entries.
//! - `transactions` begins, enters 8,220 rows, reads them back and retires them.
//! - `stage` does the same with two rows of a stage object.
//! - `tables` creates tables up to the 33rd, for which there is no slot.
//! - `growths` grows the arrays of a table that was created.
//!
//! Cuts: each plan is played whole here. `power_cuts` cuts extensions and a creation.
#![tactic(auto)]

#[cfg(test)]
mod growths;
#[cfg(test)]
mod segments;
#[cfg(test)]
mod stage;
#[cfg(test)]
mod tables;
#[cfg(test)]
mod transactions;
