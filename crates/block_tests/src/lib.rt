//! Tests of texts in blocks of the heap: what no clause says of them.
//!
//! Layer: tests and measurements, above `text_block` and `heap_palloc`, on the ground of `test_ground`. No crate stands
//! on it.
//!
//! - `blocks` writes texts into allocated blocks and reads them back, and has the words of short ones by hand.
//! - `orders` compares texts in blocks with others.
//!
//! No cut is tried: `write_law` of `text_block` says of each cut of a writing what it leaves.
#![tactic(auto)]

#[cfg(test)]
mod blocks;
#[cfg(test)]
mod orders;
