// The places of the words that every image has. An object has the number of its session less 1, and so has a lane.
ghost use Rattle.std.specs.Prelude.{◌≡◌, ◌+◌, ◌<◌, ◌≤◌};
ghost use Rattle.image_layout.specs.Fixed.{magic_at, version_at, last_at, table_count_at, table_slot_at, descriptor_at, lane_op_at, lane_dest_at, lane_block_at, state_at, commit_word_at, ready_at, first_segment_at, entry_at, lane_at, object_at};

use crate::layout::{LANE_WORDS, OBJECT_WORDS, SEGMENT_PAGES, SEGMENT_WORDS};
use crate::place::{Page, Place};

/// The word with the image's magic number.
pub fn magic() -> Place
    ensures { result.0 ≡ magic_at }
{
    Place(512)
}

/// The word with the version of the format.
pub fn version() -> Place
    ensures { result.0 ≡ version_at }
{
    Place(513)
}

/// The word with the last commit number.
pub fn last_commit() -> Place
    ensures { result.0 ≡ last_at }
{
    Place(514)
}

/// The word with the number of published tables.
pub fn table_count() -> Place
    ensures { result.0 ≡ table_count_at }
{
    Place(515)
}

/// The pointer to a table.
pub fn table_slot(table: u8) -> Place
    requires { table < 32 }
    ensures { result.0 ≡ table_slot_at table }
{
    Place(520 + u32::from(table))
}

/// The descriptor of a page.
pub fn descriptor(page: Page) -> Place
    requires { page.0 < 8192 }
    ensures { result.0 ≡ descriptor_at page.0 }
{
    let page = u32::from(page.0);
    Place(page / SEGMENT_PAGES * SEGMENT_WORDS + page % SEGMENT_PAGES)
}

/// What a lane is at work on: 0 for nothing, 1 for an allocation, 2 for a freeing.
pub fn lane_op(lane: u8) -> Place
    requires { lane < 16 }
    ensures { result.0 ≡ lane_op_at lane }
{
    lane_word(lane, 0)
}

/// The pointer to the owner's word of a lane.
pub fn lane_dest(lane: u8) -> Place
    requires { lane < 16 }
    ensures { result.0 ≡ lane_dest_at lane }
{
    lane_word(lane, 1)
}

/// The pointer to the block of a lane.
pub fn lane_block(lane: u8) -> Place
    requires { lane < 16 }
    ensures { result.0 ≡ lane_block_at lane }
{
    lane_word(lane, 2)
}

/// Whether a transaction object is open: 0 or 1.
pub fn object_state(object: u8) -> Place
    requires { object < 16 }
    ensures { result.0 ≡ state_at object }
{
    object_word(object, 0)
}

/// The commit word of a transaction object.
pub fn commit_word(object: u8) -> Place
    requires { object < 16 }
    ensures { result.0 ≡ commit_word_at object }
{
    object_word(object, 1)
}

/// How many segments of entries a transaction object has ready.
pub fn ready_segments(object: u8) -> Place
    requires { object < 16 }
    ensures { result.0 ≡ ready_at object }
{
    object_word(object, 2)
}

/// The pointer to the first segment of entries of a transaction object.
pub fn segment_pointer(object: u8) -> Place
    requires { object < 16 }
    ensures { result.0 ≡ first_segment_at object }
{
    object_word(object, 3)
}

/// One of the 60 entries that stand in a transaction object itself.
pub fn entry_word(object: u8, entry: u8) -> Place
    requires object { object < 16 }
    requires entry { entry < 60 }
    ensures { result.0 ≡ entry_at object entry }
{
    object_word(object, 4 + entry)
}

fn lane_word(lane: u8, word: u8) -> Place
    requires lane { lane < 16 }
    requires word { word < 8 }
    ensures { result.0 ≡ lane_at lane word }
{
    Place(576 + LANE_WORDS * u32::from(lane) + u32::from(word))
}

fn object_word(object: u8, word: u8) -> Place
    requires object { object < 16 }
    requires word { word < 64 }
    ensures { result.0 ≡ object_at object word }
{
    Place(1024 + OBJECT_WORDS * u32::from(object) + u32::from(word))
}
