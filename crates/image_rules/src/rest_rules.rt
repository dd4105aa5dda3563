// The rules that an image at rest keeps beside the others: nothing is half done, pages that were given back are 0.
ghost use Rattle.std.specs.Prelude.{◌≡◌, ◌+◌, ◌%◌, ◌<◌, ◌≤◌, map, length};
ghost use Rattle.std.specs.List.{range_with_len};
ghost use Rattle.image_layout.specs.Checks.{Keeps, first_failing};
ghost use Rattle.image_layout.specs.EntryRules.{table_count_rule, objects_rule};
ghost use Rattle.image_layout.specs.SoundRules.{zero_check, idle_rule, closed_rule, given_back_rule};
ghost use Rattle.image_rules.specs.Parts.{next_slot_rule, object_zeros};

use crate::entry_rules::{next_segment, ready_count};
use crate::heap_rules::{descriptor_place, left_behind, page_count};
use crate::layout::{GIVEN_BACK, IDLE};
use crate::table_rules::published_tables;
use pm_model::{
    LANES, OBJECT_ENTRIES, OBJECTS, PAGE_WORDS, SEGMENT_ENTRIES, TABLES, commit_word, entry_word,
    lane_op, object_state, segment_pointer, table_slot,
};

/// The op of the first lane that isn't idle.
pub fn idle_fault(words: &[u64]) -> Option<u32>
    requires { 32768 ≤ length words.now }
    ensures { result ≡ first_failing (idle_rule words.now) }
{
    for lane in 0..LANES {
        let op = lane_op(lane).0;
        if words[op as usize] != IDLE {
            return Some(op);
        }
    }
    None
}

/// The table slot at the table count, where it isn't null.
pub(crate) fn next_slot_fault(words: &[u64]) -> Option<u32>
    requires one_or_more { 32768 ≤ length words.now }
    requires tables { Keeps words.now table_count_rule }
    ensures { result ≡ first_failing (next_slot_rule words.now) }
{
    let count = published_tables(words);
    if count == TABLES {
        return None;
    }
    let slot = table_slot(count).0;
    (words[slot as usize] != 0).then_some(slot)
}

/// The first word of a transaction object that isn't 0 among its state, its commit word and its entries, also those in
/// its ready segments.
pub fn closed_fault(words: &[u64]) -> Option<u32>
    requires segments { length words.now % 32768 ≡ 0 }
    requires one_or_more { 32768 ≤ length words.now }
    requires most { length words.now ≤ 4194304 }
    requires objects { Keeps words.now objects_rule }
    ensures { result ≡ first_failing (closed_rule words.now) }
{
    for object in 0..OBJECTS {
        let found = open_word(words, object);
        if found.is_some() {
            return found;
        }
    }
    None
}

fn open_word(words: &[u64], object: u8) -> Option<u32>
    requires object { object < 16 }
    requires segments { length words.now % 32768 ≡ 0 }
    requires one_or_more { 32768 ≤ length words.now }
    requires most { length words.now ≤ 4194304 }
    requires objects { Keeps words.now objects_rule }
    ensures { result ≡ first_failing (object_zeros words.now object) }
{
    let state = object_state(object).0;
    if words[state as usize] != 0 {
        return Some(state);
    }
    let commit = commit_word(object).0;
    if words[commit as usize] != 0 {
        return Some(commit);
    }
    let own = used_word(words, entry_word(object, 0).0, OBJECT_ENTRIES as u32);
    if own.is_some() {
        return own;
    }
    let mut pointer = segment_pointer(object);
    for number in 0..ready_count(words, object) {
        let segment = next_segment(words, object, number, pointer);
        let found = used_word(words, segment.0 + 1, SEGMENT_ENTRIES as u32);
        if found.is_some() {
            return found;
        }
        pointer = segment;
    }
    None
}

/// The first word that isn't 0 of a free page that was given back.
pub fn given_back_fault(words: &[u64]) -> Option<u32>
    requires { length words.now ≤ 4194304 }
    ensures { result ≡ first_failing (given_back_rule words.now) }
{
    let mut inside = 0;
    for page in 0..page_count(words) {
        let word = words[descriptor_place(page) as usize];
        if inside == 0 && word == GIVEN_BACK {
            let found = used_word(words, PAGE_WORDS * page, PAGE_WORDS);
            if found.is_some() {
                return found;
            }
        }
        inside = left_behind(inside, page, word);
    }
    None
}

// The first of so many words from a place on that isn't 0.
fn used_word(words: &[u64], first: u32, count: u32) -> Option<u32>
    requires within { first + count ≤ length words.now }
    requires most { length words.now ≤ 4194304 }
    ensures { result ≡ first_failing (map (zero_check words.now) (range_with_len first count)) }
{
    for place in first..first + count {
        if words[place as usize] != 0 {
            return Some(place);
        }
    }
    None
}
