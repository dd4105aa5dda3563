//! Common ground of tests and measurements of trees: a table with a column of integers on a formatted image, and pairs
//! that are put into its tree.
//!
//! Layer: tests and measurements, above `fp_tree`, whose plans it plays, `catalog` and `test_ground`. On it stand
//! `tree_tests` and `bench`.
//!
//! State: none. A memory, a heap and a tree are made and handed on, or are lent.
//!
//! Calls in the order of use: `empty_tree`, or `empty_column` and `ready_tree`; for each pair `put`, or `make_room` and a
//! plan of one's own; `find`. What each leaves is `IsReady`: the tree stands for the words, and a leaf may be planned
//! through lane 0.
#![tactic(auto)]

mod column;
mod error;
mod pairs;

pub use column::empty_column;
pub use error::GroundError;
pub use pairs::{empty_tree, find, make_room, put, ready_tree};
