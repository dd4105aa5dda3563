//! Tests of the heap, of arrays that grow in it, and of the stamps of rows: what no clause says of them.
//!
//! Layer: tests and measurements, above `heap_palloc` with `heap_small` and `heap_big`, `seg_array` and `row_stamps`,
//! on the ground of `test_ground`. No crate stands on it.
//!
//! - `slots` and `runs` have the bitmaps of small pages and the free runs as tables.
//! - `blocks` has the places of blocks, and how many actions their plans have.
//! - `arrays` has growths up to the full array.
//! - `stamps` has who sees a row.
//!
//! Cuts: `arrays` cuts a growth after each of its actions. Those of an allocation and a freeing stand in
//! `opening_tests`, which mends their lanes.
#![tactic(auto)]

#[cfg(test)]
mod arrays;
#[cfg(test)]
mod blocks;
#[cfg(test)]
mod runs;
#[cfg(test)]
mod slots;
#[cfg(test)]
mod stamps;
