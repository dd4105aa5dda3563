// The rules of a stage image, tried in their order on the words of a memory.
ghost use Rattle.std.specs.Prelude.{◌≡◌, ◌+◌, ◌*◌, ◌<◌, ◌≤◌, ◌==◌, ◌&&◌, nat_le, if◌then◌else◌, [], ◌∷◌, length, slice_index};
ghost use Rattle.image_layout.specs.Fixed.{descriptor_at, entry_at};
ghost use Rattle.pm_model.specs.Device.{IsWhole};
ghost use Rattle.image_layout.specs.Checks.{check, first_failing, first_fault};
ghost use Rattle.engine_core.specs.Opened.{told};
ghost use Rattle.engine_core.specs.ImageRules.{magic_rule, version_rule, last_rule, reserved_rule, is_reserved_page, object_rule, object_checks, may_be_commit_word, entry_rule, entry_checks, is_entry, is_entry_word, entry_rules, stamp_rule, row_checks, dead};

use crate::layout::{STAGE_ROWS, born, ended, high};
use crate::stage::STAGE_VERSION;
use mv_model::limits::MAX_COMMITS;
use pm_model::{
    MAGIC, Memory, NO_COMMIT, OBJECT_ENTRIES, OBJECTS, PAGE_WORDS, Page, Place, RESERVED,
    commit_word, descriptor, entry_word, last_commit, magic, object_state, ready_segments,
    segment_pointer, version,
};

// The pages at the front of the image that the heap never gives out, and how many pages a segment has.
const RESERVED_PAGES: u16 = 28;

const SEGMENT: u16 = 64;

// An entry's kind stands in the upper 8 bits of its word, its table in the next 24, and its row in the lower half.
const KIND_UNIT: u64 = 1 << 56;

const TABLE_UNIT: u64 = 1 << 32;

const TABLE_COUNT: u64 = 1 << 24;

/// A rule that an image breaks, by its number, and the place of the word at which it does.
#[derive(Clone, Copy, Debug)]
pub(crate) struct Broken {
    pub rule: u8,
    pub place: u32,
}

/// The first of rules 1 to 15 that the image breaks.
pub(crate) fn broken_entry_rule<M: Memory>(memory: &M) -> Option<Broken>
    requires whole { IsWhole (M.device memory.now) }
    ensures { told result ≡ first_fault entry_rules (M.device memory.now).cached }
{
    if let Some(place) = bad_magic(memory) {
        return Some(Broken { rule: 1, place });
    }
    if let Some(place) = bad_version(memory) {
        return Some(Broken { rule: 2, place });
    }
    if let Some(place) = bad_last(memory) {
        return Some(Broken { rule: 3, place });
    }
    if let Some(place) = bad_reserved(memory) {
        return Some(Broken { rule: 5, place });
    }
    if let Some(place) = bad_object(memory) {
        return Some(Broken { rule: 14, place });
    }
    if let Some(place) = bad_entry(memory) {
        return Some(Broken { rule: 15, place });
    }
    None
}

// The place of a word, where what is to hold of it doesn't.
fn unless(holds: bool, place: Place) -> Option<u32>
    ensures { result ≡ first_failing (check place.0 holds ∷ []) }
{
    if holds { None } else { Some(place.0) }
}

fn bad_magic<M: Memory>(memory: &M) -> Option<u32>
    requires whole { IsWhole (M.device memory.now) }
    ensures { result ≡ first_failing (magic_rule (M.device memory.now).cached) }
{
    unless(memory.load(magic()) == MAGIC, magic())
}

fn bad_version<M: Memory>(memory: &M) -> Option<u32>
    requires whole { IsWhole (M.device memory.now) }
    ensures { result ≡ first_failing (version_rule (M.device memory.now).cached) }
{
    unless(memory.load(version()) == STAGE_VERSION, version())
}

fn bad_last<M: Memory>(memory: &M) -> Option<u32>
    requires whole { IsWhole (M.device memory.now) }
    ensures { result ≡ first_failing (last_rule (M.device memory.now).cached) }
{
    unless(memory.load(last_commit()) <= MAX_COMMITS, last_commit())
}

fn is_reserved(page: u16) -> bool
    ensures { result ≡ is_reserved_page page }
{
    page % SEGMENT == 0 || page < RESERVED_PAGES
}

fn bad_page<M: Memory>(memory: &M, page: u16) -> Option<u32>
    requires whole { IsWhole (M.device memory.now) }
    requires page { 512 * page < length (M.device memory.now).cached }
    ensures { result ≡ first_failing
        (if is_reserved_page page
        then check (descriptor_at page) (slice_index (M.device memory.now).cached (descriptor_at page) == 8) ∷ []
        else []) }
{
    let place = descriptor(Page(page));
    if is_reserved(page) {
        unless(memory.load(place) == RESERVED, place)
    } else {
        None
    }
}

fn bad_reserved<M: Memory>(memory: &M) -> Option<u32>
    requires whole { IsWhole (M.device memory.now) }
    ensures { result ≡ first_failing (reserved_rule (M.device memory.now).cached) }
{
    let pages = (memory.len() / PAGE_WORDS) as u16;
    for page in 0..pages {
        if let Some(place) = bad_page(memory, page) {
            return Some(place);
        }
    }
    None
}

fn may_be(last: u64, number: u64) -> bool
    requires { last ≤ 1099511627775 }
    ensures { result ≡ may_be_commit_word last number }
{
    number <= last + 1 && number <= MAX_COMMITS
}

fn bad_object_at<M: Memory>(memory: &M, object: u8) -> Option<u32>
    requires whole { IsWhole (M.device memory.now) }
    requires object { object < 16 }
    requires last { slice_index (M.device memory.now).cached 514 ≤ 1099511627775 }
    ensures { result ≡ first_failing (object_checks (M.device memory.now).cached object) }
{
    let last = memory.load(last_commit());
    let word = commit_word(object);
    if memory.load(object_state(object)) > 1 {
        Some(object_state(object).0)
    } else if !may_be(last, memory.load(word)) {
        Some(word.0)
    } else if memory.load(ready_segments(object)) != 0 {
        Some(ready_segments(object).0)
    } else {
        unless(
            memory.load(segment_pointer(object)) == 0,
            segment_pointer(object),
        )
    }
}

fn bad_object<M: Memory>(memory: &M) -> Option<u32>
    requires whole { IsWhole (M.device memory.now) }
    requires last { slice_index (M.device memory.now).cached 514 ≤ 1099511627775 }
    ensures { result ≡ first_failing (object_rule (M.device memory.now).cached) }
{
    for object in 0..OBJECTS {
        if let Some(place) = bad_object_at(memory, object) {
            return Some(place);
        }
    }
    None
}

fn spells_entry(word: u64) -> bool
    ensures { result ≡ is_entry word }
{
    (word / KIND_UNIT == 1 || word / KIND_UNIT == 2)
        && word / TABLE_UNIT % TABLE_COUNT == 0
        && word % TABLE_UNIT < STAGE_ROWS as u64
}

fn bad_entry_at<M: Memory>(memory: &M, object: u8, nth: u8) -> Option<u32>
    requires whole { IsWhole (M.device memory.now) }
    requires object { object < 16 }
    requires nth { nth < 60 }
    ensures { result ≡ first_failing
        (check (entry_at object nth) (is_entry_word (M.device memory.now).cached object nth) ∷ []) }
{
    let place = entry_word(object, nth);
    let word = memory.load(place);
    let follows = nth == 0 || memory.load(entry_word(object, nth - 1)) != 0;
    unless(word == 0 || (spells_entry(word) && follows), place)
}

fn bad_open_entry<M: Memory>(memory: &M, object: u8) -> Option<u32>
    requires whole { IsWhole (M.device memory.now) }
    requires object { object < 16 }
    ensures { result ≡ first_failing (entry_checks (M.device memory.now).cached object) }
{
    if memory.load(object_state(object)) != 1 {
        return None;
    }
    for nth in 0..OBJECT_ENTRIES {
        if let Some(place) = bad_entry_at(memory, object, nth) {
            return Some(place);
        }
    }
    None
}

fn bad_entry<M: Memory>(memory: &M) -> Option<u32>
    requires whole { IsWhole (M.device memory.now) }
    ensures { result ≡ first_failing (entry_rule (M.device memory.now).cached) }
{
    for object in 0..OBJECTS {
        if let Some(place) = bad_open_entry(memory, object) {
            return Some(place);
        }
    }
    None
}

// Whether the stamp is the number of one of the commits up to the last.
fn is_shown_by(last: u64, stamp: u64) -> bool
    ensures { result ≡ (nat_le 1 stamp && nat_le stamp last) }
{
    1 <= stamp && stamp <= last
}

fn bad_row<M: Memory>(memory: &M, row: u32) -> Option<u32>
    requires whole { IsWhole (M.device memory.now) }
    requires row { row < 4096 }
    ensures { result ≡ first_failing (row_checks (M.device memory.now).cached row) }
{
    let last = memory.load(last_commit());
    let used = u64::from(row) < memory.load(high());
    let created = memory.load(born(row));
    let removed = memory.load(ended(row));
    let is_born = if used {
        created == 0 || created == NO_COMMIT || is_shown_by(last, created)
    } else {
        created == 0
    };
    if is_born {
        let is_ended = removed == 0
            || (used
                && is_shown_by(last, created)
                && is_shown_by(last, removed)
                && created <= removed);
        unless(is_ended, ended(row))
    } else {
        Some(born(row).0)
    }
}

/// The place at which the image breaks rule 27.
pub(crate) fn bad_stamp<M: Memory>(memory: &M) -> Option<u32>
    requires whole { IsWhole (M.device memory.now) }
    ensures { result ≡ first_failing (stamp_rule (M.device memory.now).cached) }
{
    if memory.load(high()) > u64::from(STAGE_ROWS) {
        return Some(high().0);
    }
    for row in 0..STAGE_ROWS {
        if let Some(place) = bad_row(memory, row) {
            return Some(place);
        }
    }
    None
}
