//! That laws say something: what those about plans ask is met, one after the other, over a formatted image, and what
//! those about opening ask over images that are written out.
//!
//! Layer: tests and measurements, above `txn_object`, `stage_object`, `text_block`, `catalog`, `seg_array`,
//! `tree_cuts`, `fitting_plans`, `image_rules`, `opening_steps` and `mv_model`, whose laws it uses as a caller does. No
//! crate stands on it, and it has no code.
//!
//! State: none. `specs/OneTransaction`, `specs/StageTransaction`, `specs/FirstTable` and `specs/FirstText` have the
//! words that each plan leaves, `specs/FirstVersion` an image of version 1, `specs/SplitLogs` two with a split log at
//! work, `specs/TwoLanes` and `specs/HalfSplit` three whose logs don't fit, and `specs/HeldPage` one that an allocation
//! may spoil.
//!
//! Laws: `transaction_law` (a begin, an entry and a retire, each over the words that the one before it leaves),
//! `stage_transaction_law` (the same of a stage image), `text_law` (a first text), `freeing_law` (blocks that may be
//! freed), `split_log_law` (split logs to mend), `beginning_law` (objects that may be begun), `creation_law` (the first
//! table), `consistency_law` (the states of a store's histories), `written_images_law` (sound and intact images, word
//! by word, and what may grow in them), `logs_law` (an image whose opening ends sound, and a cut of whose opening
//! doesn't), `freed_leaf_law` and `loose_leaf_law` (two whose opening changes what is read), `held_page_law` (a page
//! that is free and that a lane is about to allocate).
#![tactic(auto)]

mod beginnings;
mod blocks;
mod holds;
mod laws;
mod logs;
mod splits;
mod stages;

pub use beginnings::beginning_law;
pub use blocks::{freeing_law, text_law};
pub use holds::held_page_law;
pub use laws::{consistency_law, creation_law, transaction_law, written_images_law};
pub use logs::{freed_leaf_law, logs_law, loose_leaf_law};
pub use splits::split_log_law;
pub use stages::stage_transaction_law;
