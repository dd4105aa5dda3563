// The rule that nothing which a table does is half done: no split of a leaf, and no creation of a table.
ghost use Rattle.std.specs.Prelude.{◌≡◌, ◌+◌, ◌%◌, ◌≤◌, length};
ghost use Rattle.std.specs.List.{flat_map};
ghost use Rattle.image_layout.specs.Tables as tables;
ghost use Rattle.image_layout.specs.Checks.{Keeps, first_failing};
ghost use Rattle.image_layout.specs.EntryRules.{table_count_rule, table_slot_rule};
ghost use Rattle.image_layout.specs.SoundRules.{split_log_rule};
ghost use Rattle.image_rules.specs.Parts.{IsTableBlock, log_checks};

use crate::extensions::column_record;
use crate::rest_rules::next_slot_fault;
use crate::table_rules::{columns_of, published_tables, table_block};
use pm_model::{Place, new_leaf, split_leaf};

/// The first word that isn't null among the leaf that each column is splitting and the one that it is adding, table by
/// table, and behind them the table slot at the table count.
pub fn split_log_fault(words: &[u64]) -> Option<u32>
    requires segments { length words.now % 32768 ≡ 0 }
    requires one_or_more { 32768 ≤ length words.now }
    requires most { length words.now ≤ 4194304 }
    requires tables { Keeps words.now table_count_rule }
    requires slots { Keeps words.now table_slot_rule }
    ensures { result ≡ first_failing (split_log_rule words.now) }
{
    for table in 0..published_tables(words) {
        let found = table_log_fault(words, table_block(words, table));
        if found.is_some() {
            return found;
        }
    }
    next_slot_fault(words)
}

fn table_log_fault(words: &[u64], block: Place) -> Option<u32>
    requires most { length words.now ≤ 4194304 }
    requires block { IsTableBlock words.now block.0 }
    ensures { result ≡ first_failing (flat_map (log_checks words.now) (tables.columns_of words.now block.0)) }
{
    for number in 0..columns_of(words, block) {
        let found = column_log_fault(words, column_record(words, block, number));
        if found.is_some() {
            return found;
        }
    }
    None
}

fn column_log_fault(words: &[u64], column: Place) -> Option<u32>
    requires most { length words.now ≤ 4194304 }
    requires within { column.0 + 40 ≤ length words.now }
    ensures { result ≡ first_failing (log_checks words.now column.0) }
{
    let split = split_leaf(column).0;
    if words[split as usize] != 0 {
        return Some(split);
    }
    let new = new_leaf(column).0;
    (words[new as usize] != 0).then_some(new)
}
