//! The words of an image: where each stands, what it means, and the numbered rules that they keep.
//!
//! Layer: words and the device, at the bottom. It knows no device: `pm_model` stands above it and gives its items on.
//!
//! - `layout` has the sizes, `fixed` the places that every image has, `records` those of a table, a column, an array
//!   and a segment of entries, `chunks` the sizes of an array's chunks, and `formatted` the words of a formatted image.
//! - `place` has the numbers of a word and of a page, and the pointer that a word holds.
//! - `specs/Blocks` has the live blocks and the free pages that the words of a heap say there are; `heap_law` is about
//!   them.
//! - `specs/EntryRules` and `specs/SoundRules` have the numbered rules of an image, over what the files beside them say
//!   of tables, arrays, objects, trees and owners. `fault_law`: an image has no first fault exactly where it keeps each
//!   rule.
//!
//! Invariants, of every pointer that is made here:
//! 1. it is 0, or names a word of the largest image;
//! 2. its word, read back, is the same pointer.
//!
//! Nothing here changes words: each call is a number, a place or a list of new words.
#![tactic(auto)]

mod chunks;
mod error;
mod fixed;
mod formatted;
mod heap_laws;
mod laws;
mod layout;
mod place;
mod records;

pub use chunks::{MAX_CHUNKS, chunk_capacity, chunk_of, chunk_pages, chunk_words};
pub use error::NoMemory;
pub use fixed::{
    commit_word, descriptor, entry_word, lane_block, lane_dest, lane_op, last_commit, magic,
    object_state, ready_segments, segment_pointer, table_count, table_slot, version,
};
pub use formatted::fresh;
pub use heap_laws::heap_law;
pub use laws::{fault_law, limits_law};
pub use layout::{
    ALLOCATING, BIG_HEAD, CLOSED, COLUMN_WORDS, ENTRY_SEGMENT_WORDS, EXTENSION_HEAD_WORDS,
    EXTENSION_WORDS, FIRST_SLOT, FIRST_VERSION, FIXED_PAGES, FREEING, GIVEN_BACK, HEADER_WORDS,
    IDLE, LANE_WORDS, LANES, LAST_BIG_HEAD, LAST_SMALL_PAGE, LINE_WORDS, MAGIC, MAX_COLUMNS,
    MAX_COMMITS, MAX_ENTRY_SEGMENTS, MAX_SEGMENTS, MAX_WORDS, NAME_WORDS, NO_COMMIT,
    OBJECT_ENTRIES, OBJECT_WORDS, OBJECTS, OPEN, PAGE_LINES, PAGE_WORDS, RESERVED, SEGMENT_ENTRIES,
    SEGMENT_PAGES, SEGMENT_WORDS, SESSIONS, SMALL_PAGE, TABLE_HEAD_WORDS, TABLES, VERSION,
};
pub use place::{PPtr, Page, Place};
pub use records::{
    chunk_pointer, codes_header, column, column_count, column_kind, column_name, created_header,
    dictionary_header, ended_header, extension_column, first_extension, first_leaf, high,
    inner_columns, new_leaf, next_extension, segment_entry, since, split_leaf, table_name,
    table_words,
};
