// The rules of owner words: each names a live block that fits, no block has two, and each live block has one.
ghost use Rattle.std.specs.Prelude.{◌≡◌, ◌*◌, ◌%◌, ◌<◌, ◌≤◌, ◌==◌, ◌&&◌, false, IfOk, length, map};
ghost use Rattle.std.specs.Int.{bit_at};
ghost use Rattle.std.specs.BTreeSet.{contains};
ghost use Rattle.std.specs.Ordering.{nat_cmp};
ghost use Rattle.image_layout.specs.Pointer.{pointer_word};
ghost use Rattle.image_layout.specs.Places.{is_pointer, place_in};
ghost use Rattle.image_layout.specs.Blocks.{blocks_of_page, says_big as big_descriptor, is_inside as page_is_inside, is_live as block_is_live};
ghost use Rattle.image_layout.specs.Checks.{Keeps, first_failing};
ghost use Rattle.image_layout.specs.EntryRules.{table_count_rule, table_slot_rule, objects_rule};
ghost use Rattle.image_rules.specs.BuiltOwners.{built_owner_rule, HasWords, built_single_owner_rule, built_owned_rule, kept_check, slot_blocks, is_slot_block as slot_block_holds, is_head_block as head_block_holds};

use crate::heap_rules::{descriptor_place, is_inside, left_behind, page_count, says_small};
use crate::layout::{BIG_HEAD, FIRST_SLOT, LAST_BIG_HEAD, SMALL_PAGE};
use crate::owner_words::{OwnerWord, owner_words};
use crate::pointers::pointed_place;
use heap_small::{Class, class_words, slots};
use pm_model::{NoMemory, PAGE_WORDS, PPtr, Place};
use std::alloc::Global;
use std::collections::BTreeSet;

/// The first owner word that doesn't name the first word of a live block of the words that its owner needs.
pub fn owner_fault(alloc: Global, words: &[u64]) -> Result<Option<u32>, NoMemory>
    requires segments { length words.now % 32768 ≡ 0 }
    requires one_or_more { 32768 ≤ length words.now }
    requires most { length words.now ≤ 4194304 }
    requires tables { Keeps words.now table_count_rule }
    requires slots { Keeps words.now table_slot_rule }
    requires objects { Keeps words.now objects_rule }
    ensures { IfOk result (λ fault. fault ≡ first_failing (built_owner_rule words.now)) }
{
    let owners = owner_words(alloc, words)?;
    for owner in &owners {
        if !names_block(words, owner.word, owner.block_words) {
            return Ok(Some(owner.place));
        }
    }
    Ok(None)
}

// Whether a word is the pointer of a live block of so many words.
fn names_block(words: &[u64], word: u64, count: u32) -> bool
    requires segments { length words.now % 32768 ≡ 0 }
    requires most { length words.now ≤ 4194304 }
    ensures { result ≡ (is_pointer words.now word && block_is_live words.now (place_in word) count) }
{
    match pointed_place(words, word) {
        Some(place) => is_live(words, place, count),
        None => false,
    }
}

// Whether a live block of so many words begins at a place. It reads the descriptors of the place's segment.
fn is_live(words: &[u64], place: u32, count: u32) -> bool
    requires in_image { place < length words.now }
    requires segments { length words.now % 32768 ≡ 0 }
    requires most { length words.now ≤ 4194304 }
    ensures { result ≡ block_is_live words.now place count }
{
    let page = place / PAGE_WORDS;
    if is_inside(words, page) {
        return false;
    }
    let descriptor = words[descriptor_place(page) as usize];
    if says_small(descriptor) {
        let class = Class::new((descriptor - SMALL_PAGE) as u8);
        let bitmap = words[(PAGE_WORDS * page) as usize];
        return is_slot_block(bitmap, class, place % PAGE_WORDS, count);
    }
    is_head_block(descriptor, place % PAGE_WORDS, count)
}

// Whether a used slot of so many words begins at an offset in a small page.
fn is_slot_block(bitmap: u64, class: Class, offset: u32, count: u32) -> bool
    requires { offset < 512 }
    ensures { result ≡ slot_block_holds bitmap class offset count }
{
    let slot = offset.saturating_sub(FIRST_SLOT) / class_words(class);
    class_words(class) == count
        && slot < slots(class)
        && FIRST_SLOT + slot * class_words(class) == offset
        && is_set(bitmap, slot)
}

// Whether a page with this descriptor begins a big block of so many words at an offset in it.
fn is_head_block(descriptor: u64, offset: u32, count: u32) -> bool
    ensures { result ≡ head_block_holds descriptor offset count }
{
    says_big(descriptor)
        && offset == 0
        && u64::from(PAGE_WORDS) * (descriptor - BIG_HEAD) == u64::from(count)
}

fn says_big(descriptor: u64) -> bool
    ensures { result ≡ big_descriptor descriptor }
{
    BIG_HEAD < descriptor && descriptor <= LAST_BIG_HEAD
}

fn is_set(bitmap: u64, slot: u32) -> bool
    requires { slot < 64 }
    ensures { result ≡ (bit_at bitmap slot == 1) }
{
    (bitmap >> slot) % 2 == 1
}

/// The first owner word that names a block that one before it names.
pub fn single_owner_fault(alloc: Global, words: &[u64]) -> Result<Option<u32>, NoMemory>
    requires segments { length words.now % 32768 ≡ 0 }
    requires one_or_more { 32768 ≤ length words.now }
    requires most { length words.now ≤ 4194304 }
    requires tables { Keeps words.now table_count_rule }
    requires slots { Keeps words.now table_slot_rule }
    requires objects { Keeps words.now objects_rule }
    ensures { IfOk result (λ fault. fault ≡ first_failing (built_single_owner_rule words.now)) }
{
    let owners = owner_words(alloc, words)?;
    let mut seen = BTreeSet::new(alloc);
    for owner in &owners {
        let is_first = seen.insert(owner.word)?;
        if !is_first {
            return Ok(Some(owner.place));
        }
    }
    Ok(None)
}

/// The first live block that no owner word names: its first word's place.
pub fn owned_fault(alloc: Global, words: &[u64]) -> Result<Option<u32>, NoMemory>
    requires segments { length words.now % 32768 ≡ 0 }
    requires one_or_more { 32768 ≤ length words.now }
    requires most { length words.now ≤ 4194304 }
    requires tables { Keeps words.now table_count_rule }
    requires slots { Keeps words.now table_slot_rule }
    requires objects { Keeps words.now objects_rule }
    ensures { IfOk result (λ fault. fault ≡ first_failing (built_owned_rule words.now)) }
{
    let owners = owner_words(alloc, words)?;
    let owned = words_held(alloc, &owners)?;
    let mut inside = 0;
    for page in 0..page_count(words) {
        if inside == 0 {
            let found = page_fault(words, &owned, page);
            if found.is_some() {
                return Ok(found);
            }
        }
        inside = left_behind(inside, page, words[descriptor_place(page) as usize]);
    }
    Ok(None)
}

// What the owner words hold.
fn words_held(alloc: Global, owners: &[OwnerWord]) -> Result<BTreeSet<u64>, NoMemory>
    ensures { IfOk result (λ held. HasWords held (map (λ owner. owner.word) owners.now)) }
{
    let mut held = BTreeSet::new(alloc);
    for owner in owners {
        held.insert(owner.word)?;
    }
    Ok(held)
}

// The first live block of a page that isn't inside a big block whose pointer isn't there.
fn page_fault(words: &[u64], owned: &BTreeSet<u64>, page: u32) -> Option<u32>
    requires in_image { 512 * page < length words.now }
    requires most { length words.now ≤ 4194304 }
    requires outside { page_is_inside words.now page ≡ false }
    ensures { result ≡ first_failing (map (kept_check owned.now) (blocks_of_page words.now page)) }
{
    let first = PAGE_WORDS * page;
    let descriptor = words[descriptor_place(page) as usize];
    if says_small(descriptor) {
        let class = Class::new((descriptor - SMALL_PAGE) as u8);
        return slot_fault(owned, page, class, words[first as usize]);
    }
    if !says_big(descriptor) {
        return None;
    }
    (!is_owned(owned, first)).then_some(first)
}

fn slot_fault(owned: &BTreeSet<u64>, page: u32, class: Class, bitmap: u64) -> Option<u32>
    requires { page < 8192 }
    ensures { result ≡ first_failing (map (kept_check owned.now) (slot_blocks page class bitmap)) }
{
    for slot in 0..slots(class) {
        let place = PAGE_WORDS * page + FIRST_SLOT + slot * class_words(class);
        if is_set(bitmap, slot) && !is_owned(owned, place) {
            return Some(place);
        }
    }
    None
}

fn is_owned(owned: &BTreeSet<u64>, place: u32) -> bool
    requires { place < 4194304 }
    ensures { result ≡ contains nat_cmp owned.now (pointer_word place) }
{
    owned.contains(&PPtr::of(Place(place)).word())
}
