// The rule of transaction objects.
ghost use Rattle.std.specs.Prelude.{◌≡◌, ◌+◌, ◌-◌, ◌%◌, ◌^◌, ◌<◌, ◌≤◌, min, length, slice_index};
ghost use Rattle.image_layout.specs.Fixed.{last_at};
ghost use Rattle.image_layout.specs.Checks.{first_failing};
ghost use Rattle.image_layout.specs.EntryRules.{object_rule, objects_rule};
ghost use Rattle.image_rules.specs.Parts.{segment_checks};

use crate::layout::{MAX_COMMITS, OPEN};
use crate::pointers::{is_null_or_words, pointed_words};
use pm_model::{
    ENTRY_SEGMENT_WORDS, MAX_ENTRY_SEGMENTS, OBJECTS, commit_word, last_commit, object_state,
    ready_segments, segment_pointer,
};

/// The first word of a transaction object that breaks its rule: its state, its commit word, the number of its ready
/// segments, the pointer to one of these, or the pointer after them.
pub fn objects_fault(words: &[u64]) -> Option<u32>
    requires segments { length words.now % 32768 ≡ 0 }
    requires one_or_more { 32768 ≤ length words.now }
    requires most { length words.now ≤ 4194304 }
    ensures { result ≡ first_failing (objects_rule words.now) }
{
    for object in 0..OBJECTS {
        let found = object_fault(words, object);
        if found.is_some() {
            return found;
        }
    }
    None
}

fn object_fault(words: &[u64], object: u8) -> Option<u32>
    requires object { object < 16 }
    requires segments { length words.now % 32768 ≡ 0 }
    requires one_or_more { 32768 ≤ length words.now }
    requires most { length words.now ≤ 4194304 }
    ensures { result ≡ first_failing (object_rule object words.now) }
{
    let state = object_state(object).0;
    if words[state as usize] > OPEN {
        return Some(state);
    }
    let commit = commit_word(object).0;
    if words[commit as usize] > next_commit(words) {
        return Some(commit);
    }
    let ready = ready_segments(object).0;
    if words[ready as usize] > u64::from(MAX_ENTRY_SEGMENTS) {
        return Some(ready);
    }
    segments_fault(words, object, words[ready as usize] as u32)
}

// The greatest commit word that an object may have.
fn next_commit(words: &[u64]) -> u64
    requires { 32768 ≤ length words.now }
    ensures { result ≡ min (slice_index words.now last_at + 1) (2 ^ 40 - 1) }
{
    let last = words[last_commit().0 as usize];
    if last < MAX_COMMITS {
        last + 1
    } else {
        MAX_COMMITS
    }
}

// The first pointer to one of an object's first segments, or after them, that breaks the rule.
fn segments_fault(words: &[u64], object: u8, ready: u32) -> Option<u32>
    requires object { object < 16 }
    requires ready { ready ≤ 32 }
    requires segments { length words.now % 32768 ≡ 0 }
    requires one_or_more { 32768 ≤ length words.now }
    requires most { length words.now ≤ 4194304 }
    ensures { result ≡ first_failing (segment_checks words.now object ready) }
{
    let mut reached = [0; MAX_ENTRY_SEGMENTS as usize];
    let mut pointer = segment_pointer(object).0;
    for segment in 0..ready {
        let Some(place) = pointed_words(words, words[pointer as usize], ENTRY_SEGMENT_WORDS) else {
            return Some(pointer);
        };
        if reached[..segment as usize].contains(&place) {
            return Some(pointer);
        }
        reached[segment as usize] = place;
        pointer = place;
    }
    let after = words[pointer as usize];
    (!is_null_or_words(words, after, ENTRY_SEGMENT_WORDS)).then_some(pointer)
}
