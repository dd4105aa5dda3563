// The rule of trees: the leaves of a column stand in one list, which comes to an end.
ghost use Rattle.std.specs.Prelude.{◌≡◌, ◌+◌, ◌-◌, ◌%◌, ◌<◌, ◌≤◌, [], ◌==◌, ◌||◌, true, None, length, slice_index};
ghost use Rattle.std.specs.List.{flat_map};
ghost use Rattle.image_layout.specs.Places.{is_null_or_pointer_to, is_pointer_to, place_in};
ghost use Rattle.image_layout.specs.Records.{first_leaf_at, next_leaf_at, split_leaf_at};
ghost use Rattle.image_layout.specs.Tables as tables;
ghost use Rattle.image_layout.specs.Trees.{stored_leaves};
ghost use Rattle.image_layout.specs.Checks.{Keeps, first_failing};
ghost use Rattle.image_layout.specs.EntryRules.{is_among, is_split_leaf, leaf_checks, table_count_rule, table_slot_rule, tree_checks, tree_rule};
ghost use Rattle.image_rules.specs.Parts.{ClosesList, IsCircle, IsOnCircle, IsTableBlock, LeadsOn, leads_on, next_of, leaf_after as leaf_reached};

use crate::extensions::column_record;
use crate::layout::{LEAF_BLOCK_WORDS, LEAF_SLOTS};
use crate::pointers::{is_null_or_words, pointed_words};
use crate::table_rules::{columns_of, published_tables, table_block};
use pm_model::{Place, first_leaf, new_leaf, split_leaf};

/// The first word that breaks the rule of trees, table by table and column by column: a pointer to the first leaf, to
/// the leaf that is being split or to the one that is being added, where it isn't null and names no words of a leaf's
/// block; along the list of leaves a bitmap with a bit above its slots, or a next word that isn't null and names no
/// such words or a leaf that the list has reached; the leaf that is being split, where the list doesn't have it.
///
/// Time as for the leaves; for those of a list in a circle, as for the words. It takes no memory.
pub fn tree_fault(words: &[u64]) -> Option<u32>
    requires segments { length words.now % 32768 ≡ 0 }
    requires one_or_more { 32768 ≤ length words.now }
    requires most { length words.now ≤ 4194304 }
    requires tables { Keeps words.now table_count_rule }
    requires slots { Keeps words.now table_slot_rule }
    ensures { result ≡ first_failing (tree_rule words.now) }
{
    for table in 0..published_tables(words) {
        let found = table_trees_fault(words, table_block(words, table));
        if found.is_some() {
            return found;
        }
    }
    None
}

fn table_trees_fault(words: &[u64], block: Place) -> Option<u32>
    requires segments { length words.now % 32768 ≡ 0 }
    requires most { length words.now ≤ 4194304 }
    requires block { IsTableBlock words.now block.0 }
    ensures { result ≡ first_failing (flat_map (tree_checks words.now) (tables.columns_of words.now block.0)) }
{
    for number in 0..columns_of(words, block) {
        let found = column_tree_fault(words, column_record(words, block, number));
        if found.is_some() {
            return found;
        }
    }
    None
}

fn column_tree_fault(words: &[u64], column: Place) -> Option<u32>
    requires segments { length words.now % 32768 ≡ 0 }
    requires most { length words.now ≤ 4194304 }
    requires within { column.0 + 40 ≤ length words.now }
    ensures { result ≡ first_failing (tree_checks words.now column.0) }
{
    let first = first_leaf(column).0;
    if !is_null_or_words(words, words[first as usize], LEAF_BLOCK_WORDS) {
        return Some(first);
    }
    let split = split_leaf(column).0;
    if !is_null_or_words(words, words[split as usize], LEAF_BLOCK_WORDS) {
        return Some(split);
    }
    let new = new_leaf(column).0;
    if !is_null_or_words(words, words[new as usize], LEAF_BLOCK_WORDS) {
        return Some(new);
    }
    let found = list_fault(words, column);
    if found.is_some() {
        return found;
    }
    (!is_split_in_list(words, column)).then_some(split)
}

// Of the leaves along the list of a column.
fn list_fault(words: &[u64], column: Place) -> Option<u32>
    requires segments { length words.now % 32768 ≡ 0 }
    requires most { length words.now ≤ 4194304 }
    requires within { column.0 + 40 ≤ length words.now }
    requires first { is_null_or_pointer_to words.now 128 (slice_index words.now (first_leaf_at column.0)) ≡ true }
    ensures { result ≡ first_failing (leaf_checks words.now [] (stored_leaves words.now column.0)) }
{
    let word = words[first_leaf(column).0 as usize];
    let Some(first) = pointed_words(words, word, LEAF_BLOCK_WORDS) else {
        return None;
    };
    let mut leaf = first;
    for step in 0..words.len() {
        if words[leaf as usize] >> LEAF_SLOTS != 0 {
            return Some(leaf);
        }
        let next = words[leaf as usize + 1];
        if next == 0 {
            return None;
        }
        let Some(reached) = pointed_words(words, next, LEAF_BLOCK_WORDS) else {
            return Some(leaf + 1);
        };
        leaf = reached;
    }
    // So many leaves lead on that the list goes in a circle.
    let steps = circle_steps(words, leaf);
    Some(last_of_list(words, first, steps) + 1)
}

// By how many next words a leaf on a circle is reached from itself.
fn circle_steps(words: &[u64], leaf: u32) -> u32
    requires segments { length words.now % 32768 ≡ 0 }
    requires most { length words.now ≤ 4194304 }
    requires on { LeadsOn words.now leaf }
    requires circle { IsOnCircle words.now leaf }
    ensures { IsCircle words.now leaf result }
{
    let mut other = next_leaf(words, leaf);
    let most = words.len() as u32;
    for step in 0..most {
        if other == leaf {
            return step + 1;
        }
        other = next_leaf(words, other);
    }
    most
}

// The leaf that is reached from one by so many next words.
fn leaf_after(words: &[u64], first: u32, steps: u32) -> u32
    requires segments { length words.now % 32768 ≡ 0 }
    requires most { length words.now ≤ 4194304 }
    requires on { LeadsOn words.now first }
    ensures { result ≡ leaf_reached words.now first steps }
{
    let mut leaf = first;
    for step in 0..steps {
        leaf = next_leaf(words, leaf);
    }
    leaf
}

// The last leaf of a list that goes in a circle of so many leaves: its next word goes back. Of two that are a circle
// apart the one behind is the first on the circle where the one ahead names it.
fn last_of_list(words: &[u64], first: u32, steps: u32) -> u32
    requires segments { length words.now % 32768 ≡ 0 }
    requires most { length words.now ≤ 4194304 }
    requires on { LeadsOn words.now first }
    requires circle { IsCircle words.now (leaf_reached words.now first (length words.now)) steps }
    ensures { ClosesList words.now first result }
{
    let mut behind = first;
    let mut ahead = leaf_after(words, first, steps - 1);
    for step in 0..words.len() {
        let next = next_leaf(words, ahead);
        if next == behind {
            return ahead;
        }
        behind = next_leaf(words, behind);
        ahead = next;
    }
    ahead
}

// The leaf that a leaf's next word names.
fn next_leaf(words: &[u64], leaf: u32) -> u32
    requires segments { length words.now % 32768 ≡ 0 }
    requires most { length words.now ≤ 4194304 }
    requires within { leaf + 2 ≤ length words.now }
    requires on { leads_on words.now leaf ≡ true }
    ensures leaf { result ≡ next_of words.now leaf }
    ensures within { result + 128 ≤ length words.now }
{
    pointed_words(words, words[leaf as usize + 1], LEAF_BLOCK_WORDS).unwrap()
}

// Whether the leaf that is being split is null, or a leaf of the list.
fn is_split_in_list(words: &[u64], column: Place) -> bool
    requires segments { length words.now % 32768 ≡ 0 }
    requires most { length words.now ≤ 4194304 }
    requires within { column.0 + 40 ≤ length words.now }
    requires first { is_null_or_pointer_to words.now 128 (slice_index words.now (first_leaf_at column.0)) ≡ true }
    requires split { is_null_or_pointer_to words.now 128 (slice_index words.now (split_leaf_at column.0)) ≡ true }
    requires list { first_failing (leaf_checks words.now [] (stored_leaves words.now column.0)) ≡ None }
    ensures { result ≡ is_split_leaf words.now column.0 }
{
    let split = words[split_leaf(column).0 as usize];
    match pointed_words(words, split, LEAF_BLOCK_WORDS) {
        Some(leaf) => is_in_list(words, column, leaf),
        None => true,
    }
}

fn is_in_list(words: &[u64], column: Place, leaf: u32) -> bool
    requires segments { length words.now % 32768 ≡ 0 }
    requires most { length words.now ≤ 4194304 }
    requires within { column.0 + 40 ≤ length words.now }
    requires first { is_null_or_pointer_to words.now 128 (slice_index words.now (first_leaf_at column.0)) ≡ true }
    requires list { first_failing (leaf_checks words.now [] (stored_leaves words.now column.0)) ≡ None }
    ensures { result ≡ is_among (stored_leaves words.now column.0) leaf }
{
    let mut word = words[first_leaf(column).0 as usize];
    for step in 0..words.len() {
        let Some(reached) = pointed_words(words, word, LEAF_BLOCK_WORDS) else {
            return false;
        };
        if reached == leaf {
            return true;
        }
        word = words[reached as usize + 1];
    }
    false
}
