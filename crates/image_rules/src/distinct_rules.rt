// The rule that names differ.
ghost use Rattle.std.specs.Prelude.{◌≡◌, ◌+◌, ◌%◌, ◌<◌, ◌≤◌, [], map, length, slice_index};
ghost use Rattle.std.specs.List.{list_any};
ghost use Rattle.image_layout.specs.Records.{column_name_at, table_name_at};
ghost use Rattle.image_layout.specs.Tables as tables;
ghost use Rattle.image_layout.specs.Checks.{Keeps, first_failing};
ghost use Rattle.image_layout.specs.EntryRules.{table_count_rule, table_slot_rule};
ghost use Rattle.image_layout.specs.SoundRules.{same_name as names_are_one, name_place_checks, distinct_name_rule};
ghost use Rattle.image_rules.specs.Parts.{IsTableBlock, before_of};

use crate::extensions::column_record;
use crate::table_rules::{columns_of, published_tables, table_block};
use pm_model::{Place, column_name, table_name};

/// The first word of the first name that stands before already: a table's name among the tables, or a column's among
/// those of its table.
pub fn distinct_name_fault(words: &[u64]) -> Option<u32>
    requires segments { length words.now % 32768 ≡ 0 }
    requires one_or_more { 32768 ≤ length words.now }
    requires most { length words.now ≤ 4194304 }
    requires tables { Keeps words.now table_count_rule }
    requires slots { Keeps words.now table_slot_rule }
    ensures { result ≡ first_failing (distinct_name_rule words.now) }
{
    for table in 0..published_tables(words) {
        let block = table_block(words, table);
        let name = table_name(block);
        if is_table_name(words, table, name) {
            return Some(name.0);
        }
        let found = column_repeat(words, block);
        if found.is_some() {
            return found;
        }
    }
    None
}

// Whether a name is that of one of the first tables, so many of them.
fn is_table_name(words: &[u64], count: u8, name: Place) -> bool
    requires segments { length words.now % 32768 ≡ 0 }
    requires one_or_more { 32768 ≤ length words.now }
    requires most { length words.now ≤ 4194304 }
    requires slots { Keeps words.now table_slot_rule }
    requires published { count ≤ tables.table_count words.now }
    requires count { count ≤ 32 }
    requires within { name.0 + 3 ≤ length words.now }
    ensures { result ≡ list_any (names_are_one words.now name.0)
        (before_of (λ table. table_name_at (tables.table_block words.now table)) count) }
{
    for table in 0..count {
        if same_name(words, name, table_name(table_block(words, table))) {
            return true;
        }
    }
    false
}

// The first column's name of a table that is that of a column before it.
fn column_repeat(words: &[u64], block: Place) -> Option<u32>
    requires most { length words.now ≤ 4194304 }
    requires block { IsTableBlock words.now block.0 }
    ensures { result ≡ first_failing
        (name_place_checks words.now [] (map column_name_at (tables.columns_of words.now block.0))) }
{
    for number in 0..columns_of(words, block) {
        let name = column_name(column_record(words, block, number));
        if is_column_name(words, block, number, name) {
            return Some(name.0);
        }
    }
    None
}

// Whether a name is that of one of the first columns of a table, so many of them.
fn is_column_name(words: &[u64], block: Place, count: u8, name: Place) -> bool
    requires most { length words.now ≤ 4194304 }
    requires block { IsTableBlock words.now block.0 }
    requires count { count ≤ tables.column_count words.now block.0 }
    requires within { name.0 + 3 ≤ length words.now }
    ensures { result ≡ list_any (names_are_one words.now name.0)
        (before_of (λ number. column_name_at (tables.column_record words.now block.0 number)) count) }
{
    for number in 0..count {
        if same_name(
            words,
            name,
            column_name(column_record(words, block, number)),
        ) {
            return true;
        }
    }
    false
}

fn same_name(words: &[u64], name: Place, other: Place) -> bool
    requires most { length words.now ≤ 4194304 }
    requires name { name.0 + 3 ≤ length words.now }
    requires other { other.0 + 3 ≤ length words.now }
    ensures { result ≡ names_are_one words.now name.0 other.0 }
{
    let first = name.0 as usize;
    let second = other.0 as usize;
    words[first] == words[second]
        && (words[first + 1] == words[second + 1] && words[first + 2] == words[second + 2])
}
