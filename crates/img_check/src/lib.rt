//! The soundness check: a second reader of an image, which shares nothing with the opening but the rules.
//!
//! Layer: what an image shows, and how it opens, above `image_rules`. It reads words and changes none. Tests and
//! measurements call it, and no command does yet.
//!
//! - `check` tries the numbered rules of an image at rest that stand, in their order. A yes means that each is kept; a
//!   no names the first that is broken, and the first place at which it is.
//!
//! State: none.
//!
//! Invariants:
//! 1. no rule is tried before those that it relies on are kept;
//! 2. want of memory is no verdict: it says only which rules were kept before.
#![tactic(auto)]

mod checking;
mod error;

pub use checking::check;
pub use error::CheckError;
