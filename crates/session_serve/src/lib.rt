//! Commands from words and bytes to bytes: the words of the command line, the job that they name, the image and the
//! script that are read, and the image and the printed history that are written.
//!
//! Layer: the program, above the engine, the texts and `io_edge`. `sofort_main` puts real files under it.
//!
//! State: none beside the streams. A run is a core that is stepped through a script's lines, up to its end or to the
//! power cut.
//!
//! Invariants (`specs/Runs`, `IsRun`):
//! 1. nothing is written before the image and the script were read to their ends and accepted;
//! 2. the image goes out before the text, and each is flushed;
//! 3. a fault is answered only where a stream's count of faults rose.
//!
//! Calls in the order of use: `read_words`, `run`, `status_text`. What a cut run leaves is `due_law`'s and
//! `IsCutOff`'s.
#![tactic(auto)]

mod laws;
mod leaving;
mod playing;
mod serving;
mod status;

pub use command_line::{Command, Job, Paths, WordsError, read_words};
pub use laws::due_law;
pub use serving::run;
pub use status::{Status, status_text};
