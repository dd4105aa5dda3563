// The rule of stamps.
ghost use Rattle.std.specs.Prelude.{◌≡◌, ℕ, ◌+◌, ◌%◌, ◌<◌, ◌≤◌, max, Option, None, Some, IfSome, length, slice_index, nat_le};
ghost use Rattle.std.specs.List.{flat_map, list_all, range_with_len};
ghost use Rattle.image_layout.specs.Arrays.{capacity as capacity_at, capacity_of, chunk_words as words_of_chunk};
ghost use Rattle.image_layout.specs.Records.{created_header as created_at, ended_header as ended_at, high_at};
ghost use Rattle.image_layout.specs.Checks.{Keeps, first_failing};
ghost use Rattle.image_layout.specs.EntryRules.{arrays_rule, table_count_rule, table_slot_rule};
ghost use Rattle.image_layout.specs.SoundRules.{is_commit as commit_holds, is_created as created_holds, is_ended as ended_holds, is_row_bound, row_checks, stamp_checks, stamp_rule};
ghost use Rattle.image_rules.specs.Parts.{IsTableBlock, table_arrays_rule};
ghost use Rattle.image_rules.specs.Stamps.{place_checks};

use crate::array_rules::capacity;
use crate::array_words::{place_in_chunk, published_chunk, word_or_zero};
use crate::extensions::column_record;
use crate::table_rules::{columns_of, published_tables, table_block};
use image_layout::since;
use pm_model::{
    NO_COMMIT, Place, chunk_capacity, chunk_words, created_header, ended_header, high, last_commit,
};

/// The first word that breaks the rule of stamps: a table's bound on its rows with stamps, where an array of stamps has
/// fewer rows or a column begins above it, or a stamp, row by row, that of the row's creation before that of its end.
/// Time as for the rows of each table's two arrays of stamps.
pub fn stamp_fault(words: &[u64]) -> Option<u32>
    requires segments { length words.now % 32768 ≡ 0 }
    requires one_or_more { 32768 ≤ length words.now }
    requires most { length words.now ≤ 4194304 }
    requires tables { Keeps words.now table_count_rule }
    requires slots { Keeps words.now table_slot_rule }
    requires arrays { Keeps words.now arrays_rule }
    ensures { result ≡ first_failing (stamp_rule words.now) }
{
    for table in 0..published_tables(words) {
        let found = table_stamp_fault(words, table_block(words, table));
        if found.is_some() {
            return found;
        }
    }
    None
}

fn table_stamp_fault(words: &[u64], block: Place) -> Option<u32>
    requires segments { length words.now % 32768 ≡ 0 }
    requires one_or_more { 32768 ≤ length words.now }
    requires most { length words.now ≤ 4194304 }
    requires block { IsTableBlock words.now block.0 }
    requires arrays { Keeps words.now (table_arrays_rule block.0) }
    ensures { result ≡ first_failing (stamp_checks words.now block.0) }
{
    if !is_bounded(words, block) {
        return Some(high(block).0);
    }
    let created = words[created_header(block).0 as usize] as u32;
    let ended = words[ended_header(block).0 as usize] as u32;
    for chunk in 0..created.max(ended) {
        let found = chunk_stamp_fault(words, block, chunk);
        if found.is_some() {
            return found;
        }
    }
    None
}

// Whether there are stamps for all rows below the table's bound, and no column begins above it.
fn is_bounded(words: &[u64], block: Place) -> bool
    requires most { length words.now ≤ 4194304 }
    requires block { IsTableBlock words.now block.0 }
    requires arrays { Keeps words.now (table_arrays_rule block.0) }
    ensures { result ≡ is_row_bound words.now block.0 (slice_index words.now (high_at block.0)) }
{
    let bound = words[high(block).0 as usize];
    if bound > u64::from(capacity(words, created_header(block))) {
        return false;
    }
    if bound > u64::from(capacity(words, ended_header(block))) {
        return false;
    }
    for number in 0..columns_of(words, block) {
        let first = words[since(column_record(words, block, number)).0 as usize];
        if first > bound {
            return false;
        }
    }
    true
}

// Of the rows whose stamps stand in a chunk of either array, the first stamp that breaks the rule.
fn chunk_stamp_fault(words: &[u64], block: Place, chunk: u32) -> Option<u32>
    requires segments { length words.now % 32768 ≡ 0 }
    requires one_or_more { 32768 ≤ length words.now }
    requires most { length words.now ≤ 4194304 }
    requires block { IsTableBlock words.now block.0 }
    requires arrays { Keeps words.now (table_arrays_rule block.0) }
    requires bounded { slice_index words.now (high_at block.0) ≤ capacity_at words.now (created_at block.0) }
    requires chunk { chunk < 12 }
    ensures { result ≡ first_failing
        (flat_map (row_checks words.now block.0) (range_with_len (capacity_of chunk) (words_of_chunk chunk))) }
{
    let created = published_chunk(words, created_header(block), chunk);
    let ended = published_chunk(words, ended_header(block), chunk);
    let bound = words[high(block).0 as usize];
    let first = chunk_capacity(chunk);
    let rows = chunk_words(chunk);
    for offset in 0..rows {
        let stamped = u64::from(first + offset) < bound;
        let found = row_fault(
            words,
            stamped,
            place_in_chunk(created, offset),
            place_in_chunk(ended, offset),
        );
        if found.is_some() {
            return found;
        }
    }
    None
}

// The first of a row's two stamps that breaks the rule, by the places of those that are published.
fn row_fault(words: &[u64], stamped: bool, created: Option<u32>, ended: Option<u32>) -> Option<u32>
    requires one_or_more { 32768 ≤ length words.now }
    requires most { length words.now ≤ 4194304 }
    requires created { IfSome created (λ place. place < length words.now) }
    requires ended { IfSome ended (λ place. place < length words.now) }
    ensures { result ≡ first_failing (place_checks words.now stamped created ended) }
{
    let creator = word_or_zero(words, created);
    if !is_created(words, stamped, creator) {
        return created;
    }
    if !is_ended(words, stamped, creator, word_or_zero(words, ended)) {
        return ended;
    }
    None
}

// Whether a row can have this creator: none, and below the bound also that it is dead or a commit.
fn is_created(words: &[u64], stamped: bool, created: u64) -> bool
    requires { 32768 ≤ length words.now }
    ensures { result ≡ created_holds words.now stamped created }
{
    created == 0 || (stamped && (created == NO_COMMIT || is_commit(words, created)))
}

// Whether a row can have been ended so: not at all, and below the bound also by a commit that its creator isn't after.
fn is_ended(words: &[u64], stamped: bool, created: u64, ended: u64) -> bool
    requires { 32768 ≤ length words.now }
    ensures { result ≡ ended_holds words.now stamped created ended }
{
    ended == 0
        || (stamped && is_commit(words, created) && is_commit(words, ended) && created <= ended)
}

// Whether a stamp is the number of one of the commits so far.
fn is_commit(words: &[u64], stamp: u64) -> bool
    requires { 32768 ≤ length words.now }
    ensures { result ≡ commit_holds words.now stamp }
{
    1 <= stamp && stamp <= words[last_commit().0 as usize]
}
