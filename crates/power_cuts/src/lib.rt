//! A memory that remembers what a power cut would have left of it, and the walk over all power cuts of a script and of
//! the openings behind them.
//!
//! Layer: tests and measurements, above the engine and the steps of opening, at the top of the tests. No crate stands
//! on it.
//!
//! State (`Witness`): the memory that it watches, after how many actions the cut comes and what it keeps of the cache,
//! how many actions were played, and the image, once it was taken.
//!
//! Invariant: the image is that of a cut after exactly so many actions, and stays as it is at each other action.
//!
//! Calls in the order of use: `Witness::new`, each call of `Memory`, `Witness::image`.
//!
//! Cuts, each after every action and then opened:
//! - `tests`: those of a transaction of the engine, and those of the openings behind them;
//! - `heap_cuts`: those of an allocation and of a freeing;
//! - `structures`: those of the first extension of an object and of the creation of a table;
//! - `object_cuts`: those of the extension of an object with a segment and 63 entries, which `objects` makes;
//! - `versions`: those of the opening of an image of version 1 with two tables.
//!
//! `opening` has the steps of opening that the last four play.
#![tactic(auto)]

mod witness;

pub use witness::Witness;

#[cfg(test)]
mod heap_cuts;
#[cfg(test)]
mod object_cuts;
#[cfg(test)]
mod objects;
#[cfg(test)]
mod opening;
#[cfg(test)]
mod structures;
#[cfg(test)]
mod tests;
#[cfg(test)]
mod versions;
