// The leaves of trees and the used slots of leaves, gathered for the rules of their pairs.
ghost use Rattle.std.specs.Prelude.{◌≡◌, ◌+◌, ◌%◌, ◌<◌, ◌≤◌, ◌++◌, All, IfOk, length};
ghost use Rattle.image_layout.specs.Tables as tables;
ghost use Rattle.image_layout.specs.Trees.{leaf_list};
ghost use Rattle.image_layout.specs.Checks.{Keeps};
ghost use Rattle.image_layout.specs.EntryRules.{table_count_rule, table_slot_rule};
ghost use Rattle.image_rules.specs.BuiltTrees.{HasList, is_used as slot_is_used, used_along, used_in};
ghost use Rattle.image_rules.specs.Parts.{IsTableBlock};

use crate::extensions::column_record;
use crate::layout::{LEAF_BLOCK_WORDS, LEAF_SLOTS};
use crate::pointers::pointed_words;
use crate::table_rules::{columns_of, published_tables, table_block};
use pm_model::{NoMemory, Place, first_leaf};
use std::alloc::Global;

/// A used slot: the place of its leaf, and its number there.
#[derive(Clone, Copy)]
pub(crate) struct LeafSlot {
    pub(crate) leaf: u32,
    pub(crate) slot: u32,
}

/// The places of all columns' records, table by table.
pub(crate) fn all_columns(alloc: Global, words: &[u64]) -> Result<Vec<u32>, NoMemory>
    requires segments { length words.now % 32768 ≡ 0 }
    requires one_or_more { 32768 ≤ length words.now }
    requires most { length words.now ≤ 4194304 }
    requires tables { Keeps words.now table_count_rule }
    requires slots { Keeps words.now table_slot_rule }
    ensures columns { IfOk result (λ columns. columns.items ≡ tables.all_columns words.now) }
    ensures within { IfOk result (λ columns. All (λ column. column + 40 ≤ length words.now) columns.items) }
{
    let mut columns = Vec::new(alloc);
    for table in 0..published_tables(words) {
        push_columns(&mut columns, words, table_block(words, table))?;
    }
    Ok(columns)
}

fn push_columns(columns: &mut Vec<u32>, words: &[u64], block: Place) -> Result<(), NoMemory>
    requires most { length words.now ≤ 4194304 }
    requires block { IsTableBlock words.now block.0 }
    ensures columns { IfOk result
        (λ _. columns.new.items ≡ columns.old.items ++ tables.columns_of words.now block.0) }
    ensures within { IfOk result (λ _.
        All (λ column. column + 40 ≤ length words.now) columns.old.items
        → All (λ column. column + 40 ≤ length words.now) columns.new.items) }
{
    for number in 0..columns_of(words, block) {
        columns.push(column_record(words, block, number).0)?;
    }
    Ok(())
}

/// The leaves of a column, in the order of its list.
pub(crate) fn leaves_of(alloc: Global, words: &[u64], column: u32) -> Result<Vec<u32>, NoMemory>
    requires segments { length words.now % 32768 ≡ 0 }
    requires most { length words.now ≤ 4194304 }
    requires list { HasList words.now column }
    ensures leaves { IfOk result (λ leaves. leaves.items ≡ leaf_list words.now column) }
    ensures within { IfOk result (λ leaves. All (λ leaf. leaf + 128 ≤ length words.now) leaves.items) }
{
    let mut leaves = Vec::new(alloc);
    let mut word = words[first_leaf(Place(column)).0 as usize];
    for step in 0..words.len() {
        let Some(leaf) = pointed_words(words, word, LEAF_BLOCK_WORDS) else {
            return Ok(leaves);
        };
        leaves.push(leaf)?;
        word = words[leaf as usize + 1];
    }
    Ok(leaves)
}

/// The used slots along the leaves of a column.
pub(crate) fn used_slots(
    alloc: Global,
    words: &[u64],
    column: u32,
) -> Result<Vec<LeafSlot>, NoMemory>
    requires segments { length words.now % 32768 ≡ 0 }
    requires most { length words.now ≤ 4194304 }
    requires list { HasList words.now column }
    ensures used { IfOk result (λ used. used.items ≡ used_along words.now (leaf_list words.now column)) }
    ensures within { IfOk result (λ used.
        All (λ slot. (slot.leaf + 128 ≤ length words.now) × (slot.slot < 48)) used.items) }
{
    let leaves = leaves_of(alloc, words, column)?;
    let mut used = Vec::new(alloc);
    for leaf in &leaves {
        push_used(&mut used, words, *leaf)?;
    }
    Ok(used)
}

fn push_used(used: &mut Vec<LeafSlot>, words: &[u64], leaf: u32) -> Result<(), NoMemory>
    requires within { leaf + 128 ≤ length words.now }
    ensures used { IfOk result (λ _. used.new.items ≡ used.old.items ++ used_in words.now leaf) }
    ensures within { IfOk result (λ _.
        All (λ slot. (slot.leaf + 128 ≤ length words.now) × (slot.slot < 48)) used.old.items
        → All (λ slot. (slot.leaf + 128 ≤ length words.now) × (slot.slot < 48)) used.new.items) }
{
    for slot in 0..LEAF_SLOTS {
        if is_used(words, leaf, slot) {
            used.push(LeafSlot { leaf, slot })?;
        }
    }
    Ok(())
}

/// Whether a slot of a leaf is used.
pub(crate) fn is_used(words: &[u64], leaf: u32, slot: u32) -> bool
    requires within { leaf < length words.now }
    requires slot { slot < 48 }
    ensures { result ≡ slot_is_used words.now leaf slot }
{
    (words[leaf as usize] >> slot) % 2 == 1
}
