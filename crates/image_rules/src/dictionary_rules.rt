// The rules of the slots of dictionaries.
ghost use Rattle.std.specs.Prelude.{◌≡◌, ◌+◌, ◌-◌, ◌%◌, ◌≤◌, IfOk, length, map};
ghost use Rattle.std.specs.List.{range_with_len};
ghost use Rattle.image_layout.specs.Arrays.{array_rule, capacity as capacity_at, place_of};
ghost use Rattle.image_layout.specs.Checks.{Keeps, first_failing};
ghost use Rattle.image_layout.specs.EntryRules.{arrays_rule, table_count_rule, table_slot_rule, tree_rule};
ghost use Rattle.image_layout.specs.SoundRules.{spare_slot_rule, split_log_rule, zero_check};
ghost use Rattle.image_rules.specs.ArrayWords.{HasArrays};
ghost use Rattle.image_rules.specs.BuiltTrees.{HasList, column_spare_checks};

use crate::array_rules::capacity;
use crate::array_words::{word_or_zero, word_place};
use crate::leaf_lists::{all_columns, used_slots};
use crate::pair_rules::is_text;
use pm_model::{NoMemory, Place, dictionary_header};
use std::alloc::Global;

/// The first published slot of a dictionary of texts, from the number of the column's values on, that isn't 0.
pub fn spare_slot_fault(alloc: Global, words: &[u64]) -> Result<Option<u32>, NoMemory>
    requires segments { length words.now % 32768 ≡ 0 }
    requires one_or_more { 32768 ≤ length words.now }
    requires most { length words.now ≤ 4194304 }
    requires tables { Keeps words.now table_count_rule }
    requires slots { Keeps words.now table_slot_rule }
    requires arrays { Keeps words.now arrays_rule }
    requires trees { Keeps words.now tree_rule }
    requires logs { Keeps words.now split_log_rule }
    ensures { IfOk result (λ fault. fault ≡ first_failing (spare_slot_rule words.now)) }
{
    let columns = all_columns(alloc, words)?;
    for column in &columns {
        let found = column_spare_fault(alloc, words, *column)?;
        if found.is_some() {
            return Ok(found);
        }
    }
    Ok(None)
}

fn column_spare_fault(alloc: Global, words: &[u64], column: u32) -> Result<Option<u32>, NoMemory>
    requires segments { length words.now % 32768 ≡ 0 }
    requires most { length words.now ≤ 4194304 }
    requires list { HasList words.now column }
    requires arrays { HasArrays words.now column }
    ensures { IfOk result (λ fault. fault ≡ first_failing (column_spare_checks words.now column)) }
{
    if !is_text(words, column) {
        return Ok(None);
    }
    let used = used_slots(alloc, words, column)?;
    let header = dictionary_header(Place(column));
    Ok(spare_fault(words, header, used.len() as u64))
}

// The first published word of an array, from so many on, that isn't 0.
fn spare_fault(words: &[u64], header: Place, count: u64) -> Option<u32>
    requires segments { length words.now % 32768 ≡ 0 }
    requires most { length words.now ≤ 4194304 }
    requires within { header.0 + 16 ≤ length words.now }
    requires rule { Keeps words.now (array_rule header.0) }
    ensures { result ≡ first_failing (map (zero_check words.now) (map (place_of words.now header.0)
        (range_with_len count (capacity_at words.now header.0 - count)))) }
{
    for index in count..u64::from(capacity(words, header)) {
        let place = word_place(words, header, index as u32);
        if word_or_zero(words, place) != 0 {
            return place;
        }
    }
    None
}
