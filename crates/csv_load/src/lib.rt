//! Texts of CSV: their records as the rows of a table, and rows as their records.
//!
//! Layer: texts, above `sf_value`; the `csv` crate parses records. It knows no image and no engine. No command calls it
//! yet.
//!
//! State: none.
//!
//! Invariants:
//! 1. the rows are those of the records, in their order, or the error is the first cause why not (`docs/CSV.md`);
//! 2. rows that are written read back as the same rows (`laws::written_rows_read_back`).
//!
//! Calls: `typed_rows` to read, `rows_text` to write.
#![tactic(auto)]

mod error;
pub mod laws;
mod read;
mod row;
mod write;

pub use error::LoadError;
pub use read::typed_rows;
pub use write::rows_text;
