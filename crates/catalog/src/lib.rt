//! The published tables: their names, columns and blocks, and the plan that creates one.
//!
//! Layer: what an image shows, above `heap_palloc` and `shown_state`. Tables are found here by name. No library stands
//! on it yet.
//!
//! Layout: the header has the number of published tables and a slot for each of 32, the pointer to the table's block. A
//! block has the name, the first columns, and the headers of the arrays of stamps; each later column has an extension.
//!
//! Invariants, of a `Catalog` and the words that it was read from:
//! 1. it has exactly the published tables, in the order of their slots (`published_tables`);
//! 2. no two have one name.
//!
//! The record of each column of a published table lies in the image (`records_law`).
//!
//! Calls in the order of use: `rebuild`, which takes the room for every table; `table`, `shape`, `block`,
//! `column_place` to look one up; `plan_create`, and `published` once its plan was played. After an error the heap and
//! the catalog are as they were.
//!
//! What a cut can leave: no table, with or without a block in the slot at the count, which opening frees; or the table
//! (`creation_law`).
#![tactic(auto)]

mod create;
mod error;
mod laws;
mod reading;
mod tables;
mod words;

pub use error::CreateError;
pub use laws::{creation_law, records_law};
pub use pm_model::NoMemory;
pub use reading::{column_place, rebuild};
pub use tables::Catalog;
