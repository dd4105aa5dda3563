// The rule of the entries of open transactions, and the walk over an object's segments.
ghost use Rattle.std.specs.Prelude.{◌≡◌, ◌+◌, ◌%◌, ◌<◌, ◌≤◌, length};
ghost use Rattle.std.specs.List.{range_with_len};
ghost use Rattle.image_layout.specs.Tables as tables;
ghost use Rattle.image_layout.specs.Objects.{ready_count as ready_of, segment_pointer_at, segment_of, entry_places};
ghost use Rattle.image_layout.specs.Checks.{Keeps, first_failing};
ghost use Rattle.image_layout.specs.EntryRules.{table_count_rule, table_slot_rule, arrays_rule, objects_rule, entries_rule, entry_checks, is_entry as entry_holds, stamped_capacity as stamped_rows};

use crate::array_rules::capacity;
use crate::layout::OPEN;
use crate::pointers::pointed_words;
use crate::table_rules::{published_tables, table_block};
use pm_model::{
    ENTRY_SEGMENT_WORDS, OBJECT_ENTRIES, OBJECTS, Place, SEGMENT_ENTRIES, created_header,
    ended_header, entry_word, object_state, ready_segments, segment_pointer,
};

// The kinds of entries: of a row that was created, and of one that was ended.
const CREATED: u64 = 1;

const ENDED: u64 = 2;

/// The first entry word of an open transaction object that is neither 0 nor an entry of a published table and a row
/// with stamps, or that follows a 0.
pub fn entries_fault(words: &[u64]) -> Option<u32>
    requires segments { length words.now % 32768 ≡ 0 }
    requires one_or_more { 32768 ≤ length words.now }
    requires most { length words.now ≤ 4194304 }
    requires tables { Keeps words.now table_count_rule }
    requires slots { Keeps words.now table_slot_rule }
    requires arrays { Keeps words.now arrays_rule }
    requires objects { Keeps words.now objects_rule }
    ensures { result ≡ first_failing (entries_rule words.now) }
{
    for object in 0..OBJECTS {
        if words[object_state(object).0 as usize] == OPEN {
            let found = object_entries_fault(words, object);
            if found.is_some() {
                return found;
            }
        }
    }
    None
}

fn object_entries_fault(words: &[u64], object: u8) -> Option<u32>
    requires object { object < 16 }
    requires segments { length words.now % 32768 ≡ 0 }
    requires one_or_more { 32768 ≤ length words.now }
    requires most { length words.now ≤ 4194304 }
    requires tables { Keeps words.now table_count_rule }
    requires slots { Keeps words.now table_slot_rule }
    requires arrays { Keeps words.now arrays_rule }
    requires objects { Keeps words.now objects_rule }
    ensures { result ≡ first_failing (entry_checks words.now 1 (entry_places words.now object)) }
{
    let own = entry_word(object, 0);
    let first = run_fault(words, 1, own, OBJECT_ENTRIES);
    if first.is_some() {
        return first;
    }
    let mut before = words[own.0 as usize + OBJECT_ENTRIES as usize - 1];
    let mut pointer = segment_pointer(object);
    for number in 0..ready_count(words, object) {
        let segment = next_segment(words, object, number, pointer);
        let found = run_fault(words, before, Place(segment.0 + 1), SEGMENT_ENTRIES);
        if found.is_some() {
            return found;
        }
        before = words[segment.0 as usize + SEGMENT_ENTRIES as usize];
        pointer = segment;
    }
    None
}

// The first of so many words, from a place on, that is neither 0 nor an entry behind one that isn't 0. The word before
// them is told.
fn run_fault(words: &[u64], before: u64, first: Place, count: u8) -> Option<u32>
    requires within { first.0 + count ≤ length words.now }
    requires segments { length words.now % 32768 ≡ 0 }
    requires one_or_more { 32768 ≤ length words.now }
    requires most { length words.now ≤ 4194304 }
    requires tables { Keeps words.now table_count_rule }
    requires slots { Keeps words.now table_slot_rule }
    requires arrays { Keeps words.now arrays_rule }
    ensures { result ≡ first_failing (entry_checks words.now before (range_with_len first.0 count)) }
{
    let mut before = before;
    for entry in 0..count {
        let place = first.0 + u32::from(entry);
        let word = words[place as usize];
        if word != 0 && (before == 0 || !is_entry(words, word)) {
            return Some(place);
        }
        before = word;
    }
    None
}

fn is_entry(words: &[u64], word: u64) -> bool
    requires segments { length words.now % 32768 ≡ 0 }
    requires one_or_more { 32768 ≤ length words.now }
    requires most { length words.now ≤ 4194304 }
    requires tables { Keeps words.now table_count_rule }
    requires slots { Keeps words.now table_slot_rule }
    requires arrays { Keeps words.now arrays_rule }
    ensures { result ≡ entry_holds words.now word }
{
    let kind = word >> 56;
    let table = (word >> 32) % (1 << 24);
    let row = word % (1 << 32);
    (kind == CREATED || kind == ENDED)
        && table < u64::from(published_tables(words))
        && row < u64::from(stamped_capacity(words, table as u8))
}

// How many rows of a published table have stamps.
fn stamped_capacity(words: &[u64], table: u8) -> u32
    requires published { table < tables.table_count words.now }
    requires segments { length words.now % 32768 ≡ 0 }
    requires one_or_more { 32768 ≤ length words.now }
    requires most { length words.now ≤ 4194304 }
    requires tables { Keeps words.now table_count_rule }
    requires slots { Keeps words.now table_slot_rule }
    requires arrays { Keeps words.now arrays_rule }
    ensures { result ≡ stamped_rows words.now (tables.table_block words.now table) }
{
    let block = table_block(words, table);
    let created = capacity(words, created_header(block));
    created.min(capacity(words, ended_header(block)))
}

/// How many segments of an object are ready.
pub fn ready_count(words: &[u64], object: u8) -> u32
    requires object { object < 16 }
    requires one_or_more { 32768 ≤ length words.now }
    requires rule { Keeps words.now objects_rule }
    ensures count { result ≡ ready_of words.now object }
    ensures most { result ≤ 32 }
{
    words[ready_segments(object).0 as usize] as u32
}

/// A ready segment of an object, by its number and the place of the pointer to it: that is the object's own for segment
/// 0, and else the first word of the segment before.
pub fn next_segment(words: &[u64], object: u8, number: u32, pointer: Place) -> Place
    requires object { object < 16 }
    requires ready { number < ready_of words.now object }
    requires pointer { pointer.0 ≡ segment_pointer_at words.now object number }
    requires within { pointer.0 < length words.now }
    requires segments { length words.now % 32768 ≡ 0 }
    requires most { length words.now ≤ 4194304 }
    requires rule { Keeps words.now objects_rule }
    ensures segment { result.0 ≡ segment_of words.now object number }
    ensures within { result.0 + 256 ≤ length words.now }
{
    let word = words[pointer.0 as usize];
    Place(pointed_words(words, word, ENTRY_SEGMENT_WORDS).unwrap())
}
