// The rules of the pairs in the leaves of trees: the order of keys, their fingerprints, and their codes.
ghost use Rattle.std.specs.Prelude.{◌≡◌, ℕ, ◌+◌, ◌%◌, ◌<◌, ◌≤◌, [], ◌&&◌, ◌==◌, nat_lt, not, false, IfOk, length, map, slice_index};
ghost use Rattle.std.specs.List.{list_all, list_any};
ghost use Rattle.image_layout.specs.Records.{key_at};
ghost use Rattle.image_layout.specs.Tables as tables;
ghost use Rattle.image_layout.specs.Trees.{dictionary_length, leaf_list, leaf_slots};
ghost use Rattle.image_layout.specs.Checks.{Keeps, first_failing};
ghost use Rattle.image_layout.specs.EntryRules.{arrays_rule, table_count_rule, table_slot_rule, tree_rule};
ghost use Rattle.image_layout.specs.SoundRules.{code_rule, is_code_of as code_is_of, fingerprint_checks, leaf_keys, order_checks, split_log_rule};
ghost use Rattle.image_rules.specs.ArrayWords.{HasArrays, is_word_at as key_is_at};
ghost use Rattle.image_rules.specs.BuiltTrees.{HasList, built_fingerprint_rule, built_order_rule, column_code_checks, column_order_checks, column_print_checks, has_key, is_above as key_is_above, leaf_order_checks};
ghost use Rattle.image_rules.specs.Parts.{before_of};

use crate::array_words::word_place;
use crate::layout::LEAF_SLOTS;
use crate::leaf_lists::{all_columns, is_used, leaves_of, used_slots};
use crate::name_rules::{TEXTS, packed_byte};
use fp_leaf::int_fingerprint;
use pm_model::{NoMemory, Place, column_kind, dictionary_header};
use std::alloc::Global;
use std::collections::BTreeSet;

/// The first key of a column of integers that isn't above every key of the leaves before its own, or that stands in an
/// earlier slot of its leaf: the place of its word.
pub fn order_fault(alloc: Global, words: &[u64]) -> Result<Option<u32>, NoMemory>
    requires segments { length words.now % 32768 ≡ 0 }
    requires one_or_more { 32768 ≤ length words.now }
    requires most { length words.now ≤ 4194304 }
    requires tables { Keeps words.now table_count_rule }
    requires slots { Keeps words.now table_slot_rule }
    requires trees { Keeps words.now tree_rule }
    requires logs { Keeps words.now split_log_rule }
    ensures { IfOk result (λ fault. fault ≡ first_failing (built_order_rule words.now)) }
{
    let columns = all_columns(alloc, words)?;
    for column in &columns {
        let found = column_order_fault(alloc, words, *column)?;
        if found.is_some() {
            return Ok(found);
        }
    }
    Ok(None)
}

fn column_order_fault(alloc: Global, words: &[u64], column: u32) -> Result<Option<u32>, NoMemory>
    requires segments { length words.now % 32768 ≡ 0 }
    requires most { length words.now ≤ 4194304 }
    requires list { HasList words.now column }
    ensures { IfOk result (λ fault. fault ≡ first_failing (column_order_checks words.now column)) }
{
    if is_text(words, column) {
        return Ok(None);
    }
    let leaves = leaves_of(alloc, words, column)?;
    let mut greatest = None;
    for leaf in &leaves {
        let found = leaf_order_fault(words, *leaf, greatest);
        if found.is_some() {
            return Ok(found);
        }
        greatest = greatest_key(words, *leaf, greatest);
    }
    Ok(None)
}

/// Whether a column is one of texts.
pub(crate) fn is_text(words: &[u64], column: u32) -> bool
    requires { column < length words.now }
    ensures { result ≡ tables.is_text words.now column }
{
    words[column_kind(Place(column)).0 as usize] == TEXTS
}

// Of one leaf, by the greatest key of the leaves before it.
fn leaf_order_fault(words: &[u64], leaf: u32, greatest: Option<u64>) -> Option<u32>
    requires within { leaf + 128 ≤ length words.now }
    requires most { length words.now ≤ 4194304 }
    ensures { result ≡ first_failing (leaf_order_checks words.now greatest [] leaf (leaf_slots words.now leaf)) }
{
    for slot in 0..LEAF_SLOTS {
        if is_used(words, leaf, slot) {
            let place = key_place(leaf, slot);
            let key = words[place as usize];
            if !is_above(greatest, key) || is_key_before(words, leaf, slot, key) {
                return Some(place);
            }
        }
    }
    None
}

// The place of the key word of a slot.
fn key_place(leaf: u32, slot: u32) -> u32
    requires leaf { leaf + 128 ≤ 4194304 }
    requires slot { slot < 48 }
    ensures { result ≡ key_at leaf slot }
{
    leaf + 8 + 2 * slot
}

fn is_above(greatest: Option<u64>, key: u64) -> bool
    ensures { result ≡ key_is_above greatest key }
{
    match greatest {
        Some(other) => other < key,
        None => true,
    }
}

// Whether one of the first slots of a leaf, so many of them, is used and has a key.
fn is_key_before(words: &[u64], leaf: u32, count: u32, key: u64) -> bool
    requires within { leaf + 128 ≤ length words.now }
    requires most { length words.now ≤ 4194304 }
    requires count { count ≤ 48 }
    ensures { result ≡ list_any (has_key words.now leaf key) (before_of (λ slot. slot) count) }
{
    for slot in 0..count {
        if is_used(words, leaf, slot) && words[key_place(leaf, slot) as usize] == key {
            return true;
        }
    }
    false
}

// The greatest among a key and those of a leaf.
fn greatest_key(words: &[u64], leaf: u32, greatest: Option<u64>) -> Option<u64>
    requires within { leaf + 128 ≤ length words.now }
    requires most { length words.now ≤ 4194304 }
    ensures { (key : ℕ) → key_is_above result key
        ≡ (key_is_above greatest key && list_all (λ other. nat_lt other key) (leaf_keys words.now leaf)) }
{
    let mut found = greatest;
    for slot in 0..LEAF_SLOTS {
        if is_used(words, leaf, slot) {
            found = greater(found, words[key_place(leaf, slot) as usize]);
        }
    }
    found
}

fn greater(greatest: Option<u64>, key: u64) -> Option<u64>
    ensures { (other : ℕ) → key_is_above result other ≡ (key_is_above greatest other && nat_lt key other) }
{
    match greatest {
        Some(most) => Some(most.max(key)),
        None => Some(key),
    }
}

/// The first word with a fingerprint of a used slot that isn't that of its key, in a column of integers.
pub fn fingerprint_fault(alloc: Global, words: &[u64]) -> Result<Option<u32>, NoMemory>
    requires segments { length words.now % 32768 ≡ 0 }
    requires one_or_more { 32768 ≤ length words.now }
    requires most { length words.now ≤ 4194304 }
    requires tables { Keeps words.now table_count_rule }
    requires slots { Keeps words.now table_slot_rule }
    requires trees { Keeps words.now tree_rule }
    requires logs { Keeps words.now split_log_rule }
    ensures { IfOk result (λ fault. fault ≡ first_failing (built_fingerprint_rule words.now)) }
{
    let columns = all_columns(alloc, words)?;
    for column in &columns {
        let found = column_print_fault(alloc, words, *column)?;
        if found.is_some() {
            return Ok(found);
        }
    }
    Ok(None)
}

fn column_print_fault(alloc: Global, words: &[u64], column: u32) -> Result<Option<u32>, NoMemory>
    requires segments { length words.now % 32768 ≡ 0 }
    requires most { length words.now ≤ 4194304 }
    requires list { HasList words.now column }
    ensures { IfOk result (λ fault. fault ≡ first_failing (column_print_checks words.now column)) }
{
    if is_text(words, column) {
        return Ok(None);
    }
    let used = used_slots(alloc, words, column)?;
    for slot in &used {
        let key = words[key_place(slot.leaf, slot.slot) as usize];
        if packed_byte(words, Place(slot.leaf + 2), slot.slot) != int_fingerprint(key) {
            return Ok(Some(slot.leaf + 2 + slot.slot / 8));
        }
    }
    Ok(None)
}

/// The first code of a used slot whose dictionary slot isn't published below the number of the column's values, or
/// doesn't hold the slot's key word, or that stands in an earlier slot: the place of its word.
pub fn code_fault(alloc: Global, words: &[u64]) -> Result<Option<u32>, NoMemory>
    requires segments { length words.now % 32768 ≡ 0 }
    requires one_or_more { 32768 ≤ length words.now }
    requires most { length words.now ≤ 4194304 }
    requires tables { Keeps words.now table_count_rule }
    requires slots { Keeps words.now table_slot_rule }
    requires arrays { Keeps words.now arrays_rule }
    requires trees { Keeps words.now tree_rule }
    requires logs { Keeps words.now split_log_rule }
    ensures { IfOk result (λ fault. fault ≡ first_failing (code_rule words.now)) }
{
    let columns = all_columns(alloc, words)?;
    for column in &columns {
        let found = column_code_fault(alloc, words, *column)?;
        if found.is_some() {
            return Ok(found);
        }
    }
    Ok(None)
}

fn column_code_fault(alloc: Global, words: &[u64], column: u32) -> Result<Option<u32>, NoMemory>
    requires segments { length words.now % 32768 ≡ 0 }
    requires most { length words.now ≤ 4194304 }
    requires list { HasList words.now column }
    requires arrays { HasArrays words.now column }
    ensures { IfOk result (λ fault. fault ≡ first_failing (column_code_checks words.now column)) }
{
    let used = used_slots(alloc, words, column)?;
    let count = used.len() as u64;
    let mut seen = BTreeSet::new(alloc);
    for slot in &used {
        let place = key_place(slot.leaf, slot.slot);
        let code = words[place as usize + 1];
        if !is_code_of(words, column, count, words[place as usize], code) {
            return Ok(Some(place + 1));
        }
        let is_first = seen.insert(code)?;
        if !is_first {
            return Ok(Some(place + 1));
        }
    }
    Ok(None)
}

// Whether a code is below the number of a column's values, and a key word stands in its dictionary slot.
fn is_code_of(words: &[u64], column: u32, count: u64, key: u64, code: u64) -> bool
    requires segments { length words.now % 32768 ≡ 0 }
    requires most { length words.now ≤ 4194304 }
    requires within { column + 40 ≤ length words.now }
    requires arrays { HasArrays words.now column }
    requires count { count ≡ dictionary_length words.now column }
    ensures { result ≡ code_is_of words.now column key code }
{
    code < count && is_word_at(words, column, code, key)
}

// Whether a key word stands in the published dictionary slot of a code.
fn is_word_at(words: &[u64], column: u32, code: u64, key: u64) -> bool
    requires segments { length words.now % 32768 ≡ 0 }
    requires most { length words.now ≤ 4194304 }
    requires within { column + 40 ≤ length words.now }
    requires arrays { HasArrays words.now column }
    ensures { result ≡ key_is_at words.now column code key }
{
    if code > u64::from(u32::MAX) {
        return false;
    }
    match word_place(words, dictionary_header(Place(column)), code as u32) {
        Some(place) => words[place as usize] == key,
        None => false,
    }
}
