//! The words of the command line: a command, its paths and its options. `clap` parses paths and options.
//!
//! Layer: texts, above `sf_value`. `session_serve` does the job, `sofort_main` opens the paths.
//!
//! State: none.
//!
//! Invariants:
//! 1. the words of exactly the commands of `docs/COMMANDS.md` are accepted, and anything else is wrong usage;
//! 2. an option stands once at most, anywhere behind the command's name.
//!
//! Calls: `read_words` for the command with its paths, `read_job` for its job alone.
#![tactic(auto)]

mod arguments;
mod command;
pub mod laws;
mod words;

pub use arguments::WordsError;
pub use words::{Command, Job, Paths, read_job, read_words};
