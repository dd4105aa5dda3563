// The numbered rules of every image that a power cut can leave, one after the other.
ghost use Rattle.std.specs.Prelude.{◌≡◌, ◌%◌, ◌≤◌, option_map, length};
ghost use Rattle.image_layout.specs.Checks.{Keeps, first_fault};
ghost use Rattle.image_layout.specs.EntryRules.{table_count_rule, table_slot_rule};
ghost use Rattle.image_rules.specs.NumberedRules.{told, word_rules, heap_rules, fixed_rules, structure_rules, entry_rules};

use crate::array_rules::arrays_fault;
use crate::entry_rules::entries_fault;
use crate::first_words::{last_fault, magic_fault, version_fault};
use crate::heap_rules::{bitmap_fault, descriptor_fault, reserved_fault};
use crate::lane_rules::lane_fault;
use crate::name_rules::name_fault;
use crate::object_rules::objects_fault;
use crate::table_rules::{table_count_fault, table_slot_fault};
use crate::tree_rules::tree_fault;

/// The number of a rule that an image breaks, and the place of the first word that breaks it.
#[derive(Clone, Copy)]
pub struct RuleFault {
    pub rule: u8,
    pub place: u32,
}

impl RuleFault {
    ghost use Rattle.image_rules.specs.NumberedRules.{told};

    /// The fault of the rule with this number, where a word breaks it.
    pub fn of(rule: u8, place: Option<u32>) -> Option<RuleFault>
        ensures { told result ≡ option_map (λ at. record { rule = rule; place = at }) place }
    {
        match place {
            Some(place) => Some(RuleFault { rule, place }),
            None => None,
        }
    }
}

/// The first of the rules of every image that a power cut can leave that the words break: 1 to 12, 14 and 15, tried in
/// the order of their numbers. A few passes over the descriptors, the tables, the leaves and the objects.
pub fn entry_fault(words: &[u64]) -> Option<RuleFault>
    requires segments { length words.now % 32768 ≡ 0 }
    requires one_or_more { 32768 ≤ length words.now }
    requires most { length words.now ≤ 4194304 }
    ensures { told result ≡ first_fault entry_rules words.now }
{
    let fixed = fixed_fault(words);
    if fixed.is_some() {
        return fixed;
    }
    let structure = structure_fault(words);
    if structure.is_some() {
        return structure;
    }
    RuleFault::of(15, entries_fault(words))
}

// Of the rules 1 to 9.
fn fixed_fault(words: &[u64]) -> Option<RuleFault>
    requires segments { length words.now % 32768 ≡ 0 }
    requires one_or_more { 32768 ≤ length words.now }
    requires most { length words.now ≤ 4194304 }
    ensures { told result ≡ first_fault fixed_rules words.now }
{
    let slots = RuleFault::of(9, table_slot_fault(words));
    word_fault(words).or(heap_fault(words)).or(slots)
}

// Of the rules of the first words, 1 to 4.
fn word_fault(words: &[u64]) -> Option<RuleFault>
    requires { 32768 ≤ length words.now }
    ensures { told result ≡ first_fault word_rules words.now }
{
    let magic = RuleFault::of(1, magic_fault(words));
    let version = RuleFault::of(2, version_fault(words));
    let last = RuleFault::of(3, last_fault(words));
    let tables = RuleFault::of(4, table_count_fault(words));
    magic.or(version).or(last).or(tables)
}

// Of those of pages and lanes, 5 to 8.
fn heap_fault(words: &[u64]) -> Option<RuleFault>
    requires one_or_more { 32768 ≤ length words.now }
    requires most { length words.now ≤ 4194304 }
    ensures { told result ≡ first_fault heap_rules words.now }
{
    let reserved = RuleFault::of(5, reserved_fault(words));
    let descriptor = RuleFault::of(6, descriptor_fault(words));
    let bitmap = RuleFault::of(7, bitmap_fault(words));
    let lane = RuleFault::of(8, lane_fault(words));
    reserved.or(descriptor).or(bitmap).or(lane)
}

// Of those of tables' blocks and trees and of transaction objects, 10 to 12 and 14.
fn structure_fault(words: &[u64]) -> Option<RuleFault>
    requires segments { length words.now % 32768 ≡ 0 }
    requires one_or_more { 32768 ≤ length words.now }
    requires most { length words.now ≤ 4194304 }
    requires tables { Keeps words.now table_count_rule }
    requires slots { Keeps words.now table_slot_rule }
    ensures { told result ≡ first_fault structure_rules words.now }
{
    let arrays = RuleFault::of(10, arrays_fault(words));
    let trees = RuleFault::of(11, tree_fault(words));
    let names = RuleFault::of(12, name_fault(words));
    let objects = RuleFault::of(14, objects_fault(words));
    arrays.or(trees).or(names).or(objects)
}
