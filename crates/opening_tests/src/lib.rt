//! Tests of the layer of openings: `image_rules`, `img_check` and `pmem_recover` on images in which words were changed.
//!
//! Layer: tests and measurements, above these three crates, on the ground of `test_ground`. No crate stands on it.
//!
//! Each test is a table: what was changed, and what is told. What a clause says is proved, and is not tried again here.
//!
//! - `ground` has the image with one table, and the pointers that the tables name.
//! - `entry_tests` has the first broken rule that refuses an image before it is opened, `check_tests` that of an image
//!   at rest, and `owner_tests` those of owner words.
//! - `step_tests` has the plan that each step of opening finds.
//!
//! Cuts: `step_tests` cuts an allocation, the first parts of a freeing and the step to version 2 after each action, and
//! makes the step anew. `power_cuts` cuts what stands above.
#![tactic(auto)]

#[cfg(test)]
mod check_tests;
#[cfg(test)]
mod entry_tests;
#[cfg(test)]
mod ground;
#[cfg(test)]
mod owner_tests;
#[cfg(test)]
mod step_tests;
