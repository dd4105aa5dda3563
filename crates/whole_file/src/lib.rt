//! A file that is replaced whole: its new bytes go to a new file beside it, are flushed to the disk, and take its place
//! in one step. Until then the old file stays as it was, whatever fails.
//!
//! Layer: the program's files, below `sofort_main` and beside `io_edge`. `Place` is a file in its folder, by the calls
//! that a writer makes, and `WholeFile` is the writer over any place. `FolderFile` is the place of the system's files,
//! and `Claim` the lock that is taken before anything is read.
//!
//! Invariants:
//! 1. what the path shows changes at `replace` alone, unless the file is written in place;
//! 2. `replace` is called only once all written bytes are on the disk;
//! 3. a file is written in place only where its place allows no new file;
//! 4. after a failure no new file is left beside it, and every later call fails;
//! 5. a new file is removed or renamed only by the run that has its lock.
//!
//! Calls in the order of use: `Claim::of`, `FolderFile::new`, `WholeFile::new`, `write` any number of times, `flush`.
//! What a kill can leave: before `replace` the old bytes, and the new file beside it, which the next run at that file
//! removes; from `replace` on the new bytes.
#![tactic(auto)]

mod claim;
mod folder;
mod place;
mod spare;
mod writer;

pub use claim::{Claim, ClaimError, Standing};
pub use folder::FolderFile;
pub use place::{Place, Stage};
pub use spare::{SPARES, spare_name};
pub use writer::WholeFile;
