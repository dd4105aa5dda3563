//! Tests of the words of an image, of the device with its plans, and of the image file: what no clause says of them.
//!
//! Layer: tests and measurements, above `pm_model`, which gives on the words of `image_layout`, and `pm_image`. No
//! crate stands on it.
//!
//! - `words` has the pointers and the words of a formatted image, by numbers that were worked out by hand.
//! - `device` tries what a flush and a fence make durable, plans that are played in their order, and published numbers
//!   of the generator by which a cut mixes words.
//! - `file` tries the bytes of a formatted image, and the first fault of damaged ones.
#![tactic(auto)]

#[cfg(test)]
mod device;
#[cfg(test)]
mod file;
#[cfg(test)]
mod words;
