// The rule of names and kinds.
ghost use Rattle.std.specs.Prelude.{◌≡◌, ◌+◌, ◌/◌, ◌%◌, ◌<◌, ◌≤◌, length};
ghost use Rattle.image_layout.specs.Places.{packed_byte as byte_at};
ghost use Rattle.image_layout.specs.Checks.{Keeps, first_failing};
ghost use Rattle.image_layout.specs.EntryRules.{name_rule, name_checks, column_name_checks, since_checks, is_letter as says_letter, is_name_byte as says_name_byte, is_padded_name_byte as padded_name_byte_holds, table_count_rule, table_slot_rule};
ghost use Rattle.image_layout.specs.Tables as tables;
ghost use Rattle.image_rules.specs.Parts.{IsTableBlock, kind_name_checks, table_name_checks};

use crate::extensions::{column_record, is_inner};
use crate::table_rules::{columns_of, published_tables, table_block};
use image_layout::since;
use pm_model::{NAME_WORDS, Place, column_kind, column_name, table_name};

// The kinds of columns.
const INTEGERS: u64 = 1;

pub(crate) const TEXTS: u64 = 2;

// The bytes of a word.
const WORD_BYTES: u32 = 8;

/// The first word that breaks the rule of names and kinds: a column's kind that is neither 1 nor 2, or the word with
/// the first byte by which a name isn't one that is padded with zero bytes, or in version 2 the word `since` of a
/// column of the table's block that isn't 0. Table by table, the table's name, and then of each column its kind, its
/// name and that word.
pub fn name_fault(words: &[u64]) -> Option<u32>
    requires segments { length words.now % 32768 ≡ 0 }
    requires one_or_more { 32768 ≤ length words.now }
    requires most { length words.now ≤ 4194304 }
    requires tables { Keeps words.now table_count_rule }
    requires slots { Keeps words.now table_slot_rule }
    ensures { result ≡ first_failing (name_rule words.now) }
{
    for table in 0..published_tables(words) {
        let found = table_names_fault(words, table_block(words, table));
        if found.is_some() {
            return found;
        }
    }
    None
}

fn table_names_fault(words: &[u64], block: Place) -> Option<u32>
    requires most { length words.now ≤ 4194304 }
    requires block { IsTableBlock words.now block.0 }
    ensures { result ≡ first_failing (table_name_checks words.now block.0) }
{
    let named = padded_name_fault(words, table_name(block));
    if named.is_some() {
        return named;
    }
    for number in 0..columns_of(words, block) {
        let found = column_name_fault(words, block, number);
        if found.is_some() {
            return found;
        }
    }
    None
}

fn column_name_fault(words: &[u64], block: Place, number: u8) -> Option<u32>
    requires most { length words.now ≤ 4194304 }
    requires block { IsTableBlock words.now block.0 }
    requires number { number < tables.column_count words.now block.0 }
    ensures { result ≡ first_failing (column_name_checks words.now block.0 number) }
{
    let column = column_record(words, block, number);
    let named = kind_name_fault(words, column);
    if named.is_some() {
        return named;
    }
    since_fault(words, block, number, column)
}

// The place of the word that says from which row on a column has words, where it isn't 0 though the column stands in
// its table's block in version 2.
fn since_fault(words: &[u64], block: Place, number: u8, column: Place) -> Option<u32>
    requires most { length words.now ≤ 4194304 }
    requires block { IsTableBlock words.now block.0 }
    requires column { column.0 ≡ tables.column_record words.now block.0 number }
    requires within { column.0 + 40 ≤ length words.now }
    ensures { result ≡ first_failing (since_checks words.now block.0 number) }
{
    if !is_inner(words, block, number) {
        return None;
    }
    let place = since(column).0;
    (words[place as usize] != 0).then_some(place)
}

fn kind_name_fault(words: &[u64], column: Place) -> Option<u32>
    requires most { length words.now ≤ 4194304 }
    requires within { column.0 + 40 ≤ length words.now }
    ensures { result ≡ first_failing (kind_name_checks words.now column.0) }
{
    let kind = column_kind(column).0;
    if words[kind as usize] != INTEGERS && words[kind as usize] != TEXTS {
        return Some(kind);
    }
    padded_name_fault(words, column_name(column))
}

fn padded_name_fault(words: &[u64], name: Place) -> Option<u32>
    requires most { length words.now ≤ 4194304 }
    requires within { name.0 + 3 ≤ length words.now }
    ensures { result ≡ first_failing (name_checks words.now name.0) }
{
    for byte in 0..NAME_WORDS * WORD_BYTES {
        if !is_padded_name_byte(words, name, byte) {
            return Some(name.0 + byte / WORD_BYTES);
        }
    }
    None
}

// The first byte is a letter. Another is 0, or one of a name behind a byte that isn't 0.
fn is_padded_name_byte(words: &[u64], name: Place, byte: u32) -> bool
    requires most { length words.now ≤ 4194304 }
    requires within { name.0 + 3 ≤ length words.now }
    requires byte { byte < 24 }
    ensures { result ≡ padded_name_byte_holds words.now name.0 byte }
{
    let here = packed_byte(words, name, byte);
    if byte == 0 {
        return is_letter(here);
    }
    here == 0 || (is_name_byte(here) && packed_byte(words, name, byte - 1) != 0)
}

// A byte of a text or name that is packed from a place on.
pub(crate) fn packed_byte(words: &[u64], place: Place, byte: u32) -> u8
    requires most { length words.now ≤ 4194304 }
    requires within { place.0 + byte / 8 < length words.now }
    ensures { result ≡ byte_at words.now place.0 byte }
{
    let word = words[(place.0 + byte / WORD_BYTES) as usize];
    ((word >> (8 * (byte % WORD_BYTES))) % 256) as u8
}

fn is_letter(byte: u8) -> bool
    ensures { result ≡ says_letter byte }
{
    byte.is_ascii_lowercase()
}

fn is_name_byte(byte: u8) -> bool
    ensures { result ≡ says_name_byte byte }
{
    is_letter(byte) || byte.is_ascii_digit() || byte == b'_'
}
