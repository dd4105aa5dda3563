// The columns of a table: those of its block, and those of its extensions, one in each.
ghost use Rattle.std.specs.Prelude.{◌≡◌, ◌+◌, ◌%◌, ◌<◌, ◌≤◌, ◌&&◌, not, nat_lt, length, slice_index};
ghost use Rattle.image_layout.specs.Tables as tables;
ghost use Rattle.image_layout.specs.Checks.{first_failing};
ghost use Rattle.image_layout.specs.EntryRules.{extension_checks};
ghost use Rattle.image_rules.specs.Parts.{IsTableBlock, IsTableHead, pointer_checks};

use crate::pointers::{is_null_or_words, pointed_place, pointed_words};
use image_layout::{extension_column, first_extension, inner_columns, next_extension};
use pm_model::{EXTENSION_WORDS, FIRST_VERSION, MAX_COLUMNS, Place, column, column_count, version};

/// Whether the image is of version 1: all columns of a table stand in its block.
pub(crate) fn is_first_version(words: &[u64]) -> bool
    requires { 32768 ≤ length words.now }
    ensures { result ≡ tables.is_first_version words.now }
{
    words[version().0 as usize] == FIRST_VERSION
}

/// How many of a table's columns stand in its block, as the block's words say.
pub(crate) fn inner_count(words: &[u64], block: Place) -> u64
    requires one_or_more { 32768 ≤ length words.now }
    requires most { length words.now ≤ 4194304 }
    requires within { block.0 < length words.now }
    ensures { result ≡ tables.inner_columns words.now block.0 }
{
    if is_first_version(words) {
        return word_at(words, column_count(block));
    }
    word_at(words, inner_columns(block))
}

// The word at a place, and 0 behind the image.
fn word_at(words: &[u64], place: Place) -> u64
    ensures { result ≡ slice_index words.now place.0 }
{
    match words.get(place.0 as usize) {
        Some(word) => *word,
        None => 0,
    }
}

/// How many of a table's columns stand in its block.
pub(crate) fn columns_in_block(words: &[u64], block: Place) -> u8
    requires most { length words.now ≤ 4194304 }
    requires block { IsTableBlock words.now block.0 }
    ensures count { result ≡ tables.inner_columns words.now block.0 }
    ensures some { 1 ≤ result }
    ensures most { result ≤ tables.column_count words.now block.0 }
{
    inner_count(words, block) as u8
}

/// Whether the word of a column that says from which row on it has words is tried: in version 2, that of a column of
/// the table's block.
pub(crate) fn is_inner(words: &[u64], block: Place, number: u8) -> bool
    requires most { length words.now ≤ 4194304 }
    requires block { IsTableBlock words.now block.0 }
    ensures { result ≡ (not (tables.is_first_version words.now)
        && nat_lt number (tables.inner_columns words.now block.0)) }
{
    !is_first_version(words) && number < columns_in_block(words, block)
}

/// The record of a table's column, by its number.
pub(crate) fn column_record(words: &[u64], block: Place, number: u8) -> Place
    requires most { length words.now ≤ 4194304 }
    requires block { IsTableBlock words.now block.0 }
    requires number { number < tables.column_count words.now block.0 }
    ensures place { result.0 ≡ tables.column_record words.now block.0 number }
    ensures within { result.0 + 40 ≤ length words.now }
{
    let inner = columns_in_block(words, block);
    if number < inner {
        return column(block, number);
    }
    extension_column(extension(words, block, number - inner))
}

// An extension of a table, by its number.
fn extension(words: &[u64], block: Place, number: u8) -> Place
    requires most { length words.now ≤ 4194304 }
    requires block { IsTableBlock words.now block.0 }
    requires number { number < tables.extension_count words.now block.0 }
    ensures place { result.0 ≡ tables.extension_of words.now block.0 number }
    ensures within { result.0 + 48 ≤ length words.now }
{
    let pointer = extension_pointer(words, block, number);
    named_extension(words, block, number, pointer)
}

/// The pointer to an extension of a table, by its number, or the one after them.
pub(crate) fn extension_pointer(words: &[u64], block: Place, number: u8) -> Place
    requires most { length words.now ≤ 4194304 }
    requires block { IsTableBlock words.now block.0 }
    requires number { number ≤ tables.extension_count words.now block.0 }
    ensures place { result.0 ≡ tables.extension_pointer_at words.now block.0 number }
    ensures within { result.0 < length words.now }
{
    let mut pointer = first_extension(block);
    for extension in 0..number {
        pointer = next_extension(named_extension(words, block, extension, pointer));
    }
    pointer
}

// The extension that a pointer names, by the pointer's place and the extension's number.
fn named_extension(words: &[u64], block: Place, number: u8, pointer: Place) -> Place
    requires most { length words.now ≤ 4194304 }
    requires block { IsTableBlock words.now block.0 }
    requires number { number < tables.extension_count words.now block.0 }
    requires pointer { pointer.0 ≡ tables.extension_pointer_at words.now block.0 number }
    requires within { pointer.0 < length words.now }
    ensures place { result.0 ≡ tables.extension_of words.now block.0 number }
    ensures within { result.0 + 48 ≤ length words.now }
{
    let word = words[pointer.0 as usize];
    Place(pointed_place(words, word).unwrap())
}

/// The first pointer to an extension of a table that breaks the rule: one that names no words of an extension, or an
/// extension that was reached before, or the one after them, where it isn't null and names none.
pub(crate) fn extensions_fault(words: &[u64], block: Place) -> Option<u32>
    requires segments { length words.now % 32768 ≡ 0 }
    requires most { length words.now ≤ 4194304 }
    requires block { IsTableHead words.now block.0 }
    ensures { result ≡ first_failing (extension_checks words.now block.0) }
{
    if is_first_version(words) {
        return None;
    }
    let columns = words[column_count(block).0 as usize] as u8;
    pointers_fault(words, block, columns - inner_count(words, block) as u8)
}

// Of the pointers to the first extensions, so many of them, and of the one after them.
fn pointers_fault(words: &[u64], block: Place, count: u8) -> Option<u32>
    requires count { count ≤ 16 }
    requires segments { length words.now % 32768 ≡ 0 }
    requires most { length words.now ≤ 4194304 }
    requires block { IsTableHead words.now block.0 }
    ensures { result ≡ first_failing (pointer_checks words.now block.0 count) }
{
    let mut reached = [0; MAX_COLUMNS as usize];
    let mut pointer = first_extension(block).0;
    for extension in 0..count {
        let Some(place) = pointed_words(words, words[pointer as usize], EXTENSION_WORDS) else {
            return Some(pointer);
        };
        if reached[..extension as usize].contains(&place) {
            return Some(pointer);
        }
        reached[extension as usize] = place;
        pointer = place;
    }
    let after = words[pointer as usize];
    (!is_null_or_words(words, after, EXTENSION_WORDS)).then_some(pointer)
}
