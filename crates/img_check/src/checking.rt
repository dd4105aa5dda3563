// The rules of an image at rest, one after the other.
ghost use Rattle.std.specs.Prelude.{◌≡◌, ◌⊎◌, ℕ, ◌%◌, ◌≤◌, None, Some, IfOk, IfErr, OnErr, length};
ghost use Rattle.image_layout.specs.Checks.{Keeps, first_fault};
ghost use Rattle.image_layout.specs.EntryRules.{table_count_rule, table_slot_rule, arrays_rule, objects_rule, tree_rule};
ghost use Rattle.image_layout.specs.SoundRules.{split_log_rule};
ghost use Rattle.image_rules.specs.NumberedRules.{told};
ghost use Rattle.img_check.specs.declared.error.CheckError.TheVariants.{Unsound, NoMemory as OutOfMemory};
ghost use Rattle.img_check.specs.StandingRules.{IsCauseOf, closing_rules, content_rules, dictionary_rules, owner_rules, pair_rules, rules_without_memory, sound_rules};

use crate::error::CheckError;
use image_rules::{
    RuleFault, closed_fault, code_fault, distinct_name_fault, entry_fault, fingerprint_fault,
    given_back_fault, idle_fault, latest_version_fault, order_fault, owned_fault, owner_fault,
    single_owner_fault, spare_slot_fault, split_log_fault, stamp_fault,
};
use pm_model::NoMemory;
use std::alloc::Global;

/// Tries the rules of an image at rest, in the order of their numbers: those of every image that a power cut can leave
/// (1 to 12, 14 and 15), and then that nothing is half done (16 to 18), that live blocks and the owner words of tables,
/// arrays, leaves and transaction objects go together one to one (19 to 21), that the keys of columns of integers stand
/// in order along the leaves of their trees (22) and have their fingerprints (23), that the codes of a column differ and
/// each is that of its key word in the dictionary (24), that dictionaries of texts have nothing behind their length (26),
/// that stamps are those of commits and stand below their table's bound, above which
/// no column begins (27), that pages which were given back are 0 (29), that names differ (30) and that the version is 2
/// (31). An error names the first rule that the words break, and the place where they do.
///
/// It makes a few passes over the words, and n log n steps for n owner words and for n codes of a column. For these and
/// for the leaves of a column it takes memory: where that is refused, the words keep the rules before 19.
pub fn check(alloc: Global, words: &[u64]) -> Result<(), CheckError>
    requires segments { length words.now % 32768 ≡ 0 }
    requires one_or_more { 32768 ≤ length words.now }
    requires most { length words.now ≤ 4194304 }
    ensures sound { IfOk result (λ _. first_fault sound_rules words.now ≡ None) }
    ensures fault { IfErr result (λ error. IsCauseOf words.now error) }
{
    match sound_fault(alloc, words) {
        Ok(Some(found)) => Err(CheckError::Unsound {
            rule: found.rule,
            place: found.place,
        }),
        Ok(None) => Ok(()),
        Err(_) => Err(CheckError::NoMemory),
    }
}

// The first of these rules that the words break.
fn sound_fault(alloc: Global, words: &[u64]) -> Result<Option<RuleFault>, NoMemory>
    requires segments { length words.now % 32768 ≡ 0 }
    requires one_or_more { 32768 ≤ length words.now }
    requires most { length words.now ≤ 4194304 }
    ensures found { IfOk result (λ found. told found ≡ first_fault sound_rules words.now) }
    ensures tried { OnErr result (first_fault rules_without_memory words.now ≡ None) }
{
    let standing = standing_fault(words);
    if standing.is_some() {
        return Ok(standing);
    }
    let owners = owners_fault(alloc, words)?;
    if owners.is_some() {
        return Ok(owners);
    }
    let pairs = pairs_fault(alloc, words)?;
    if pairs.is_some() {
        return Ok(pairs);
    }
    let dictionaries = dictionaries_fault(alloc, words)?;
    if dictionaries.is_some() {
        return Ok(dictionaries);
    }
    Ok(content_fault(words))
}

// Of the rules 1 to 18.
fn standing_fault(words: &[u64]) -> Option<RuleFault>
    requires segments { length words.now % 32768 ≡ 0 }
    requires one_or_more { 32768 ≤ length words.now }
    requires most { length words.now ≤ 4194304 }
    ensures { told result ≡ first_fault rules_without_memory words.now }
{
    let entry = entry_fault(words);
    if entry.is_some() {
        return entry;
    }
    closing_fault(words)
}

// Of the rules 16 to 18.
fn closing_fault(words: &[u64]) -> Option<RuleFault>
    requires segments { length words.now % 32768 ≡ 0 }
    requires one_or_more { 32768 ≤ length words.now }
    requires most { length words.now ≤ 4194304 }
    requires tables { Keeps words.now table_count_rule }
    requires slots { Keeps words.now table_slot_rule }
    requires objects { Keeps words.now objects_rule }
    ensures { told result ≡ first_fault closing_rules words.now }
{
    let idle = RuleFault::of(16, idle_fault(words));
    let log = RuleFault::of(17, split_log_fault(words));
    let closed = RuleFault::of(18, closed_fault(words));
    idle.or(log).or(closed)
}

// Of the rules 19 to 21.
fn owners_fault(alloc: Global, words: &[u64]) -> Result<Option<RuleFault>, NoMemory>
    requires segments { length words.now % 32768 ≡ 0 }
    requires one_or_more { 32768 ≤ length words.now }
    requires most { length words.now ≤ 4194304 }
    requires tables { Keeps words.now table_count_rule }
    requires slots { Keeps words.now table_slot_rule }
    requires objects { Keeps words.now objects_rule }
    ensures { IfOk result (λ found. told found ≡ first_fault owner_rules words.now) }
{
    let named = owner_fault(alloc, words)?;
    let first = RuleFault::of(19, named);
    if first.is_some() {
        return Ok(first);
    }
    let single = single_owner_fault(alloc, words)?;
    let second = RuleFault::of(20, single);
    if second.is_some() {
        return Ok(second);
    }
    let owned = owned_fault(alloc, words)?;
    Ok(RuleFault::of(21, owned))
}

// Of the rules 22 to 24.
fn pairs_fault(alloc: Global, words: &[u64]) -> Result<Option<RuleFault>, NoMemory>
    requires segments { length words.now % 32768 ≡ 0 }
    requires one_or_more { 32768 ≤ length words.now }
    requires most { length words.now ≤ 4194304 }
    requires tables { Keeps words.now table_count_rule }
    requires slots { Keeps words.now table_slot_rule }
    requires arrays { Keeps words.now arrays_rule }
    requires trees { Keeps words.now tree_rule }
    requires logs { Keeps words.now split_log_rule }
    ensures { IfOk result (λ found. told found ≡ first_fault pair_rules words.now) }
{
    let unordered = order_fault(alloc, words)?;
    let first = RuleFault::of(22, unordered);
    if first.is_some() {
        return Ok(first);
    }
    let unprinted = fingerprint_fault(alloc, words)?;
    let second = RuleFault::of(23, unprinted);
    if second.is_some() {
        return Ok(second);
    }
    let uncoded = code_fault(alloc, words)?;
    Ok(RuleFault::of(24, uncoded))
}

// Of the rule 26.
fn dictionaries_fault(alloc: Global, words: &[u64]) -> Result<Option<RuleFault>, NoMemory>
    requires segments { length words.now % 32768 ≡ 0 }
    requires one_or_more { 32768 ≤ length words.now }
    requires most { length words.now ≤ 4194304 }
    requires tables { Keeps words.now table_count_rule }
    requires slots { Keeps words.now table_slot_rule }
    requires arrays { Keeps words.now arrays_rule }
    requires trees { Keeps words.now tree_rule }
    requires logs { Keeps words.now split_log_rule }
    ensures { IfOk result (λ found. told found ≡ first_fault dictionary_rules words.now) }
{
    let spare = spare_slot_fault(alloc, words)?;
    Ok(RuleFault::of(26, spare))
}

// Of the rules 27 and 29 to 31.
fn content_fault(words: &[u64]) -> Option<RuleFault>
    requires segments { length words.now % 32768 ≡ 0 }
    requires one_or_more { 32768 ≤ length words.now }
    requires most { length words.now ≤ 4194304 }
    requires tables { Keeps words.now table_count_rule }
    requires slots { Keeps words.now table_slot_rule }
    requires arrays { Keeps words.now arrays_rule }
    ensures { told result ≡ first_fault content_rules words.now }
{
    let stamps = RuleFault::of(27, stamp_fault(words));
    let given_back = RuleFault::of(29, given_back_fault(words));
    let names = RuleFault::of(30, distinct_name_fault(words));
    let version = RuleFault::of(31, latest_version_fault(words));
    stamps.or(given_back).or(names).or(version)
}
