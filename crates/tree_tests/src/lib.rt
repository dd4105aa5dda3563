//! Tests of the leaves of the trees, of the index above them, and of trees: what no clause says of them.
//!
//! Layer: tests and measurements, above `fp_leaf`, `fp_inner`, `fp_tree` and `tree_ground`. No crate stands on it.
//!
//! - `leaves` has leaves by their words: fingerprints, free slots, pairs and their greater half.
//! - `inner` puts 1,000 leaves into the index, one by one, and looks keys up.
//! - `trees` puts integers into a tree, up to the first split, and looks at its words.
//! - `lists` compares a tree of 2,000 mixed numbers with a sorted list, and lists what stands between two keys.
//! - `cuts` cuts a first leaf, insertions and a split after each of their actions, and reads the pairs of each image.
#![tactic(auto)]

#[cfg(test)]
mod cuts;
#[cfg(test)]
mod inner;
#[cfg(test)]
mod leaves;
#[cfg(test)]
mod lists;
#[cfg(test)]
mod trees;
