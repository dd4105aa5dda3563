//! Allocation into a pointer that the caller owns, whose plan survives every power cut.
//!
//! Layer: structures over words, above `heap_small` and `heap_big`. `seg_array`, `txn_object` and `catalog` allocate
//! through it; `pmem_recover` mends what a cut leaves of its plans.
//!
//! Layout: the first 64 words of each segment are the descriptors of its pages: free (0), given back (1), a small page
//! of a class (2 to 7), reserved (8), or the head of a big block of n pages (16 + n). A small page begins with its
//! bitmap. Each of 16 lanes is a line: what it is at work on, the pointer to the owner's word, and that to the block.
//!
//! Invariants, of words and index between two plans:
//! 1. the descriptors and bitmaps keep the heap's rules (`KeepsHeapRules`);
//! 2. the index `Heap` stands for the words (`IsIndexOf`): their free runs, and of each class the pages with a free
//!    slot;
//! 3. a lane is idle, so that mending it changes nothing;
//! 4. a live block has one owner's word, which names it (`OwnsBlock`).
//!
//! Calls in the order of use: `reopen`, which takes the memory for every page; `plan_allocate` and `plan_free`, which
//! take only the plan's and change the index at once: a plan that was made is played to its end. After an error the
//! index is as it was.
//!
//! What a cut can leave: the tables at `allocation_law` and `freeing_law`. Laws for the layer above: `owners_law` (who
//! owns what before and after), `lane_law`, `fresh_heap_law`.
#![tactic(auto)]

mod allocate;
mod block;
mod error;
mod free;
mod heap;
mod laws;
mod parts;
mod reading;

pub use allocate::plan_allocate;
pub use block::Block;
pub use error::AllocError;
pub use free::plan_free;
pub use heap::Heap;
pub use laws::{allocation_law, freeing_law, fresh_heap_law, lane_law, owners_law};
pub use pm_model::NoMemory;
pub use reading::reopen;
