// The rules of the table count and of the table slots, and the readers of tables.
ghost use Rattle.std.specs.Prelude.{◌≡◌, ◌%◌, ◌<◌, ◌≤◌, length};
ghost use Rattle.image_layout.specs.Tables as tables;
ghost use Rattle.image_layout.specs.Checks.{Keeps, first_failing};
ghost use Rattle.image_layout.specs.EntryRules.{table_count_rule, table_slot_checks, table_slot_rule, is_table_pointer as names_table, is_table_slot as table_slot_holds};
ghost use Rattle.image_rules.specs.Parts.{IsTableBlock};

use crate::extensions::{extensions_fault, inner_count};
use crate::pointers::{is_block_pointer, pointed_place};
use pm_model::{
    MAX_COLUMNS, Place, SEGMENT_WORDS, TABLES, column_count, table_count, table_slot, table_words,
};

/// The place of the table count, where it is above 32.
pub fn table_count_fault(words: &[u64]) -> Option<u32>
    requires { 32768 ≤ length words.now }
    ensures { result ≡ first_failing (table_count_rule words.now) }
{
    let place = table_count().0;
    (words[place as usize] > u64::from(TABLES)).then_some(place)
}

/// The first word that breaks the rule of table slots: a slot below the table count that names no table, the one at the
/// count that is neither null nor a block's pointer, or one above it that isn't null; and in version 2, behind the slot
/// of a table, a pointer to one of its extensions that names none or one that was reached before, or the one after
/// them, where it isn't null and names none.
pub fn table_slot_fault(words: &[u64]) -> Option<u32>
    requires segments { length words.now % 32768 ≡ 0 }
    requires one_or_more { 32768 ≤ length words.now }
    requires most { length words.now ≤ 4194304 }
    ensures { result ≡ first_failing (table_slot_rule words.now) }
{
    for table in 0..TABLES {
        let found = slot_fault(words, table);
        if found.is_some() {
            return found;
        }
    }
    None
}

// Of one table: its slot, and behind it its extensions.
fn slot_fault(words: &[u64], table: u8) -> Option<u32>
    requires table { table < 32 }
    requires segments { length words.now % 32768 ≡ 0 }
    requires one_or_more { 32768 ≤ length words.now }
    requires most { length words.now ≤ 4194304 }
    ensures { result ≡ first_failing (table_slot_checks words.now table) }
{
    let slot = table_slot(table).0;
    if !is_table_slot(words, table) {
        return Some(slot);
    }
    if u64::from(table) >= words[table_count().0 as usize] {
        return None;
    }
    let block = pointed_place(words, words[slot as usize]).unwrap();
    extensions_fault(words, Place(block))
}

fn is_table_slot(words: &[u64], table: u8) -> bool
    requires table { table < 32 }
    requires segments { length words.now % 32768 ≡ 0 }
    requires one_or_more { 32768 ≤ length words.now }
    requires most { length words.now ≤ 4194304 }
    ensures { result ≡ table_slot_holds words.now table }
{
    let count = words[table_count().0 as usize];
    let word = words[table_slot(table).0 as usize];
    if u64::from(table) < count {
        is_table_pointer(words, word)
    } else if u64::from(table) == count {
        word == 0 || is_block_pointer(words, word)
    } else {
        word == 0
    }
}

// Whether a word points to the block of a table with 1 to 16 columns, the first of which stand in it, that lies in one
// segment.
fn is_table_pointer(words: &[u64], word: u64) -> bool
    requires one_or_more { 32768 ≤ length words.now }
    requires most { length words.now ≤ 4194304 }
    ensures { result ≡ names_table words.now word }
{
    match pointed_place(words, word) {
        Some(place) => {
            let columns = words[column_count(Place(place)).0 as usize];
            let inner = inner_count(words, Place(place));
            (1 <= inner && inner <= columns)
                && columns <= u64::from(MAX_COLUMNS)
                && place % SEGMENT_WORDS + table_words(inner as u8) <= SEGMENT_WORDS
        }
        None => false,
    }
}

/// How many tables are published.
pub fn published_tables(words: &[u64]) -> u8
    requires one_or_more { 32768 ≤ length words.now }
    requires rule { Keeps words.now table_count_rule }
    ensures count { result ≡ tables.table_count words.now }
    ensures within { result ≤ 32 }
{
    words[table_count().0 as usize] as u8
}

/// The block of a published table, by the table's number.
pub fn table_block(words: &[u64], table: u8) -> Place
    requires segments { length words.now % 32768 ≡ 0 }
    requires one_or_more { 32768 ≤ length words.now }
    requires most { length words.now ≤ 4194304 }
    requires rule { Keeps words.now table_slot_rule }
    requires published { table < tables.table_count words.now }
    requires table { table < 32 }
    ensures place { result.0 ≡ tables.table_block words.now table }
    ensures block { IsTableBlock words.now result.0 }
{
    let word = words[table_slot(table).0 as usize];
    Place(pointed_place(words, word).unwrap())
}

/// How many columns a table has.
pub fn columns_of(words: &[u64], block: Place) -> u8
    requires { IsTableBlock words.now block.0 }
    ensures count { result ≡ tables.column_count words.now block.0 }
    ensures within { result ≤ 16 }
{
    words[column_count(block).0 as usize] as u8
}
