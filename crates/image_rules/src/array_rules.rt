// The rule of arrays.
ghost use Rattle.std.specs.Prelude.{◌≡◌, ◌+◌, ◌%◌, ◌<◌, ◌≤◌, length, slice_index};
ghost use Rattle.std.specs.List.{flat_map};
ghost use Rattle.image_layout.specs.Arrays.{array_rule, is_chunk_pointer as chunk_pointer_holds, capacity as capacity_at};
ghost use Rattle.image_layout.specs.Tables.{column_headers};
ghost use Rattle.image_layout.specs.Checks.{Keeps, first_failing};
ghost use Rattle.image_layout.specs.EntryRules.{arrays_rule, table_count_rule, table_slot_rule};
ghost use Rattle.image_rules.specs.Parts.{IsTableBlock, table_arrays_rule};

use crate::extensions::column_record;
use crate::pointers::{is_null_or_words, pointed_words};
use crate::table_rules::{columns_of, published_tables, table_block};
use pm_model::{
    MAX_CHUNKS, Place, chunk_capacity, chunk_pointer, chunk_words, codes_header, created_header,
    dictionary_header, ended_header,
};

/// The first word of an array's header that breaks the rule of arrays: the number of its chunks, or a pointer to one.
/// Tables are tried in ascending order; in each the arrays of the rows' stamps, and then those of each column.
pub fn arrays_fault(words: &[u64]) -> Option<u32>
    requires segments { length words.now % 32768 ≡ 0 }
    requires one_or_more { 32768 ≤ length words.now }
    requires most { length words.now ≤ 4194304 }
    requires tables { Keeps words.now table_count_rule }
    requires slots { Keeps words.now table_slot_rule }
    ensures { result ≡ first_failing (arrays_rule words.now) }
{
    for table in 0..published_tables(words) {
        let found = table_arrays_fault(words, table_block(words, table));
        if found.is_some() {
            return found;
        }
    }
    None
}

fn table_arrays_fault(words: &[u64], block: Place) -> Option<u32>
    requires segments { length words.now % 32768 ≡ 0 }
    requires most { length words.now ≤ 4194304 }
    requires block { IsTableBlock words.now block.0 }
    ensures { result ≡ first_failing (table_arrays_rule block.0 words.now) }
{
    let created = array_fault(words, created_header(block));
    if created.is_some() {
        return created;
    }
    let ended = array_fault(words, ended_header(block));
    if ended.is_some() {
        return ended;
    }
    for number in 0..columns_of(words, block) {
        let found = column_arrays_fault(words, column_record(words, block, number));
        if found.is_some() {
            return found;
        }
    }
    None
}

fn column_arrays_fault(words: &[u64], column: Place) -> Option<u32>
    requires segments { length words.now % 32768 ≡ 0 }
    requires most { length words.now ≤ 4194304 }
    requires within { column.0 + 40 ≤ length words.now }
    ensures { result ≡ first_failing (flat_map (λ header. array_rule header words.now) (column_headers column.0)) }
{
    let codes = array_fault(words, codes_header(column));
    if codes.is_some() {
        return codes;
    }
    array_fault(words, dictionary_header(column))
}

fn array_fault(words: &[u64], header: Place) -> Option<u32>
    requires segments { length words.now % 32768 ≡ 0 }
    requires most { length words.now ≤ 4194304 }
    requires within { header.0 + 16 ≤ length words.now }
    ensures { result ≡ first_failing (array_rule header.0 words.now) }
{
    let count = words[header.0 as usize];
    if count > u64::from(MAX_CHUNKS) {
        return Some(header.0);
    }
    for chunk in 0..MAX_CHUNKS {
        let pointer = chunk_pointer(header, chunk).0;
        if !is_chunk_pointer(words, count, chunk, words[pointer as usize]) {
            return Some(pointer);
        }
    }
    None
}

// Whether a word can be the pointer to a chunk of an array with so many published chunks.
fn is_chunk_pointer(words: &[u64], count: u64, chunk: u32, pointer: u64) -> bool
    requires segments { length words.now % 32768 ≡ 0 }
    requires most { length words.now ≤ 4194304 }
    requires chunk { chunk < 12 }
    ensures { result ≡ chunk_pointer_holds words.now count chunk pointer }
{
    if u64::from(chunk) < count {
        pointed_words(words, pointer, chunk_words(chunk)).is_some()
    } else if u64::from(chunk) == count {
        is_null_or_words(words, pointer, chunk_words(chunk))
    } else {
        pointer == 0
    }
}

/// How many words of an array are published.
pub fn capacity(words: &[u64], header: Place) -> u32
    requires most { length words.now ≤ 4194304 }
    requires within { header.0 + 16 ≤ length words.now }
    requires rule { slice_index words.now header.0 ≤ 12 }
    ensures words { result ≡ capacity_at words.now header.0 }
    ensures most { result ≤ 130560 }
{
    chunk_capacity(words[header.0 as usize] as u32)
}
