//! The numbered rules of an image: for each rule a function that finds the place of the first word that breaks it.
//!
//! Layer: what an image shows, and how it opens, above `image_layout`, whose definitions of the rules it meets.
//! `pmem_recover` and `img_check` stand on it. It reads words and changes none.
//!
//! - `NAME_fault` gives the place of the first check of `NAME_rule` that fails, and none where the image keeps the
//!   rule.
//! - `entry_fault` tries the rules of every image that a power cut can leave, in the order of their numbers.
//! - `pointed_place`, `pointed_words` and `is_block_pointer` say what a word points to.
//! - `sound_law` says of the first fault among all rules what it says of an image: that it is sound where there is none,
//!   and intact where the last rule alone is broken.
//! - The rules of owner words are tried of tables, arrays, leaves and transaction objects: `built_owners_law` says that
//!   these are all, where trees keep their rule and no column of texts has a leaf.
//!
//! State: none.
//!
//! Invariants:
//! 1. a rule is tried after those that it relies on: a call's `requires` names them;
//! 2. within a rule the words are tried in the order of `docs/OPENING.md`, so the place is that of the first which
//!    breaks it.
#![tactic(auto)]

mod array_rules;
mod array_words;
mod dictionary_rules;
mod distinct_rules;
mod entry_rules;
mod extensions;
mod first_words;
mod heap_rules;
mod lane_rules;
mod layout;
mod leaf_lists;
mod name_rules;
mod numbered_rules;
mod object_rules;
mod owner_laws;
mod owner_rules;
mod owner_words;
mod pair_rules;
mod pointers;
mod rest_rules;
mod sound_laws;
mod split_rules;
mod stamp_rules;
mod table_rules;
mod tree_rules;

pub use array_rules::{arrays_fault, capacity};
pub use dictionary_rules::spare_slot_fault;
pub use distinct_rules::distinct_name_fault;
pub use entry_rules::{entries_fault, next_segment, ready_count};
pub use first_words::{last_fault, latest_version_fault, magic_fault, version_fault};
pub use heap_rules::{bitmap_fault, descriptor_fault, is_small_page, reserved_fault};
pub use lane_rules::lane_fault;
pub use name_rules::name_fault;
pub use numbered_rules::{RuleFault, entry_fault};
pub use object_rules::objects_fault;
pub use owner_laws::built_owners_law;
pub use owner_rules::{owned_fault, owner_fault, single_owner_fault};
pub use pair_rules::{code_fault, fingerprint_fault, order_fault};
pub use pointers::{is_block_pointer, is_null_or_words, pointed_place, pointed_words};
pub use rest_rules::{closed_fault, given_back_fault, idle_fault};
pub use sound_laws::sound_law;
pub use split_rules::split_log_fault;
pub use stamp_rules::stamp_fault;
pub use table_rules::{
    columns_of, published_tables, table_block, table_count_fault, table_slot_fault,
};
pub use tree_rules::tree_fault;
