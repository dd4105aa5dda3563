//! What the steps of opening keep of a whole image, whatever a power cut leaves of it.
//!
//! Layer: what an image shows, and how it opens, above `shown_state`, whose `StepKeeps` says what a step has to keep.
//! No other crate stands on it yet.
//!
//! State: none. The laws are of the words of an image that fits together (`Fits`).
//!
//! Invariants, of each cut of a step and of its end:
//! 1. the image still fits together, and shows the same state;
//! 2. at the end, what the step mends is mended.
//!
//! Calls, in the order of the steps: `lanes_law` (lanes at work), `slots_law` (a table and texts that are half made),
//! `last_number_law` (the last commit number), `undoing_law` (transactions that no commit has decided), `objects_law`
//! (closing and clearing of transaction objects), `version_step_law` (from version 1 to version 2). The step of splits
//! has no law yet; where it has nothing to do, `quiet_opening_law` is about opening as a whole.
#![tactic(auto)]

mod laws;

pub use laws::{
    lanes_law, last_number_law, objects_law, quiet_opening_law, slots_law, undoing_law,
    version_step_law,
};
