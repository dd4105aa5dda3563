// The rules of every image that a power cut can leave, tried before it is opened.
ghost use Rattle.std.specs.Prelude.{◌≡◌, ℕ, ◌%◌, ◌≤◌, None, Some, IfOk, IfErr, length};
ghost use Rattle.image_layout.specs.Checks.{first_fault};
ghost use Rattle.pmem_recover.specs.declared.error.EntryError.TheVariants.{BadImage};
ghost use Rattle.pmem_recover.specs.EntryRules.{entry_rules};

use crate::error::EntryError;
use image_rules::entry_fault;
use std::alloc::Global;

/// Tries the rules of every image that a power cut can leave, in the order of their numbers: 1 to 4 on the first words,
/// 5 to 7 on the heap, 8 on the lanes, 9 to 12 on the tables and their trees, and 14 and 15 on the transaction objects. The
/// error names the first rule that the words break, and the place where they do. It takes no memory.
pub fn check_entry(_alloc: Global, words: &[u64]) -> Result<(), EntryError>
    requires segments { length words.now % 32768 ≡ 0 }
    requires one_or_more { 32768 ≤ length words.now }
    requires most { length words.now ≤ 4194304 }
    ensures sound { IfOk result (λ _. first_fault entry_rules words.now ≡ None) }
    ensures fault { IfErr result (λ error. (rule place : ℕ)
        × (first_fault entry_rules words.now ≡ Some (record { rule = rule; place = place }))
        × (error ≡ BadImage rule place)) }
{
    match entry_fault(words) {
        Some(found) => Err(EntryError::BadImage {
            rule: found.rule,
            place: found.place,
        }),
        None => Ok(()),
    }
}
