// The owner words of tables, arrays, leaves and transaction objects, gathered in one walk.
ghost use Rattle.std.specs.Prelude.{◌≡◌, ◌+◌, ◌%◌, ◌<◌, ◌≤◌, ◌++◌, [], ◌∷◌, filter, map, IfOk, length, slice_index};
ghost use Rattle.image_layout.specs.Tables as tables;
ghost use Rattle.image_layout.specs.Blocks.{block_words as words_of_block};
ghost use Rattle.image_layout.specs.Owners.{array_owners, extension_owners, leaf_owner, names_one, object_owners, owner_of};
ghost use Rattle.image_layout.specs.Checks.{Keeps};
ghost use Rattle.image_layout.specs.EntryRules.{table_count_rule, table_slot_rule, objects_rule};
ghost use Rattle.image_rules.specs.Parts.{IsTableBlock};
ghost use Rattle.image_rules.specs.BuiltOwners.{as_read, built_column_owners, built_table_owners, built_owner_words, leaf_links};

use crate::entry_rules::{next_segment, ready_count};
use crate::extensions::{column_record, columns_in_block, extension_pointer, is_first_version};
use crate::layout::{LEAF_BLOCK_WORDS, LEAF_WORDS};
use crate::pointers::pointed_words;
use crate::table_rules::{columns_of, published_tables, table_block};
use heap_small::{class_for, class_words};
use pm_model::{
    ENTRY_SEGMENT_WORDS, EXTENSION_WORDS, MAX_CHUNKS, NoMemory, OBJECTS, PAGE_WORDS, Place,
    chunk_pointer, chunk_words, codes_header, created_header, dictionary_header, ended_header,
    first_leaf, segment_pointer, table_slot, table_words,
};
use std::alloc::Global;

/// An owner word: its place, what it holds, and how many words the block has that its owner needs.
#[derive(Clone, Copy)]
pub(crate) struct OwnerWord {
    pub(crate) place: u32,
    pub(crate) word: u64,
    pub(crate) block_words: u32,
}

/// The owner words, in the order of the walk: table by table its slot, its extensions, the chunks of its arrays and the
/// leaves of its trees, and then object by object the pointers to its segments.
pub(crate) fn owner_words(alloc: Global, words: &[u64]) -> Result<Vec<OwnerWord>, NoMemory>
    requires segments { length words.now % 32768 ≡ 0 }
    requires one_or_more { 32768 ≤ length words.now }
    requires most { length words.now ≤ 4194304 }
    requires tables { Keeps words.now table_count_rule }
    requires slots { Keeps words.now table_slot_rule }
    requires objects { Keeps words.now objects_rule }
    ensures { IfOk result (λ owners. owners.items ≡ map (as_read words.now) (built_owner_words words.now)) }
{
    let mut owners = Vec::new(alloc);
    for table in 0..published_tables(words) {
        push_table_owners(&mut owners, words, table)?;
    }
    for object in 0..OBJECTS {
        push_object_owners(&mut owners, words, object)?;
    }
    Ok(owners)
}

fn push_table_owners(owners: &mut Vec<OwnerWord>, words: &[u64], table: u8) -> Result<(), NoMemory>
    requires table { table < 32 }
    requires published { table < tables.table_count words.now }
    requires segments { length words.now % 32768 ≡ 0 }
    requires one_or_more { 32768 ≤ length words.now }
    requires most { length words.now ≤ 4194304 }
    requires slots { Keeps words.now table_slot_rule }
    ensures { IfOk result
        (λ _. owners.new.items ≡ owners.old.items ++ map (as_read words.now) (built_table_owners words.now table)) }
{
    let block = table_block(words, table);
    let inner = columns_in_block(words, block);
    push_owner(owners, words, table_slot(table), table_words(inner))?;
    push_extension_owners(owners, words, block)?;
    push_array_owners(owners, words, created_header(block))?;
    push_array_owners(owners, words, ended_header(block))?;
    for number in 0..columns_of(words, block) {
        push_column_owners(owners, words, column_record(words, block, number))?;
    }
    Ok(())
}

// In version 2 the pointers to a table's extensions, and the one after them where it names a block.
fn push_extension_owners(
    owners: &mut Vec<OwnerWord>,
    words: &[u64],
    block: Place,
) -> Result<(), NoMemory>
    requires most { length words.now ≤ 4194304 }
    requires block { IsTableBlock words.now block.0 }
    ensures { IfOk result
        (λ _. owners.new.items ≡ owners.old.items ++ map (as_read words.now) (extension_owners words.now block.0)) }
{
    if is_first_version(words) {
        return Ok(());
    }
    let count = columns_of(words, block) - columns_in_block(words, block);
    for number in 0..count + 1 {
        let pointer = extension_pointer(words, block, number);
        push_if_named(owners, words, pointer, EXTENSION_WORDS)?;
    }
    Ok(())
}

fn push_column_owners(
    owners: &mut Vec<OwnerWord>,
    words: &[u64],
    column: Place,
) -> Result<(), NoMemory>
    requires segments { length words.now % 32768 ≡ 0 }
    requires most { length words.now ≤ 4194304 }
    requires within { column.0 + 40 ≤ length words.now }
    ensures { IfOk result
        (λ _. owners.new.items ≡ owners.old.items ++ map (as_read words.now) (built_column_owners words.now column.0)) }
{
    push_array_owners(owners, words, codes_header(column))?;
    push_array_owners(owners, words, dictionary_header(column))?;
    push_leaf_owners(owners, words, column)
}

// The pointers to the leaves of a column's tree, for as long as they lead from one to the next.
fn push_leaf_owners(
    owners: &mut Vec<OwnerWord>,
    words: &[u64],
    column: Place,
) -> Result<(), NoMemory>
    requires segments { length words.now % 32768 ≡ 0 }
    requires most { length words.now ≤ 4194304 }
    requires within { column.0 + 40 ≤ length words.now }
    ensures { IfOk result
        (λ _. owners.new.items
        ≡ owners.old.items ++ map (as_read words.now) (map leaf_owner (leaf_links words.now column.0))) }
{
    let mut pointer = first_leaf(column);
    for step in 0..words.len() {
        let word = words[pointer.0 as usize];
        if word == 0 {
            return Ok(());
        }
        push_owner(owners, words, pointer, LEAF_WORDS)?;
        let Some(leaf) = pointed_words(words, word, LEAF_BLOCK_WORDS) else {
            return Ok(());
        };
        pointer = Place(leaf + 1);
    }
    Ok(())
}

// The pointers to an array's published chunks, and the one after them where it names a block.
fn push_array_owners(
    owners: &mut Vec<OwnerWord>,
    words: &[u64],
    header: Place,
) -> Result<(), NoMemory>
    requires most { length words.now ≤ 4194304 }
    requires within { header.0 + 16 ≤ length words.now }
    ensures { IfOk result
        (λ _. owners.new.items ≡ owners.old.items ++ map (as_read words.now) (array_owners words.now header.0)) }
{
    let count = words[header.0 as usize].min(u64::from(MAX_CHUNKS)) as u32;
    for chunk in 0..(count + 1).min(MAX_CHUNKS) {
        let pointer = chunk_pointer(header, chunk);
        push_if_named(owners, words, pointer, chunk_words(chunk))?;
    }
    Ok(())
}

// The pointers to an object's ready segments, and the one after them where it names a block.
fn push_object_owners(
    owners: &mut Vec<OwnerWord>,
    words: &[u64],
    object: u8,
) -> Result<(), NoMemory>
    requires object { object < 16 }
    requires segments { length words.now % 32768 ≡ 0 }
    requires one_or_more { 32768 ≤ length words.now }
    requires most { length words.now ≤ 4194304 }
    requires rule { Keeps words.now objects_rule }
    ensures { IfOk result
        (λ _. owners.new.items ≡ owners.old.items ++ map (as_read words.now) (object_owners words.now object)) }
{
    let mut pointer = segment_pointer(object);
    for number in 0..ready_count(words, object) {
        push_if_named(owners, words, pointer, ENTRY_SEGMENT_WORDS)?;
        pointer = next_segment(words, object, number, pointer);
    }
    push_if_named(owners, words, pointer, ENTRY_SEGMENT_WORDS)
}

// An owner word that is one only where it isn't null.
fn push_if_named(
    owners: &mut Vec<OwnerWord>,
    words: &[u64],
    place: Place,
    count: u32,
) -> Result<(), NoMemory>
    requires within { place.0 < length words.now }
    requires some { 1 ≤ count }
    requires most { count ≤ 32768 }
    ensures { IfOk result
        (λ _. owners.new.items
        ≡ owners.old.items ++ map (as_read words.now) (filter (names_one words.now) (owner_of place.0 count ∷ []))) }
{
    if words[place.0 as usize] == 0 {
        return Ok(());
    }
    push_owner(owners, words, place, count)
}

fn push_owner(
    owners: &mut Vec<OwnerWord>,
    words: &[u64],
    place: Place,
    count: u32,
) -> Result<(), NoMemory>
    requires within { place.0 < length words.now }
    requires some { 1 ≤ count }
    requires most { count ≤ 32768 }
    ensures { IfOk result
        (λ _. owners.new.items ≡ owners.old.items ++ as_read words.now (owner_of place.0 count) ∷ []) }
{
    owners.push(OwnerWord {
        place: place.0,
        word: words[place.0 as usize],
        block_words: block_words(count),
    })?;
    Ok(())
}

// The words of the block that so many words are given.
fn block_words(count: u32) -> u32
    requires some { 1 ≤ count }
    requires most { count ≤ 32768 }
    ensures { result ≡ words_of_block count }
{
    match class_for(count) {
        Some(class) => class_words(class),
        None => PAGE_WORDS * ((count + PAGE_WORDS - 1) / PAGE_WORDS),
    }
}
