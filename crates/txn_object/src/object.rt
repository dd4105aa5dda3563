// The plans of a transaction on its object.
ghost use Rattle.std.specs.Prelude.{ℕ, List, ◌≡◌, ◌+◌, ◌*◌, ◌^◌, ◌<◌, ◌≤◌, ◌||◌, ◌==◌, ◌++◌, min, not, take, length, if◌then◌else◌, IfOk, IsTrue};
ghost use Rattle.std.specs.List.{range_with_len};
ghost use Rattle.image_layout.specs.Checks.{Keeps};
ghost use Rattle.image_layout.specs.EntryRules.{object_rule};
ghost use Rattle.image_layout.specs.Objects.{entry_places};
ghost use Rattle.pm_model.specs.Plans.{part_actions, plan_of, stores};
ghost use Rattle.txn_object.specs.Object.{begin_parts, own_object, entry_part, clear_part, retire_parts};

use crate::entry::Entry;
use crate::segments::{MORE_ENTRIES, OWN_ENTRIES, entry_place, object_of};
use pm_model::{
    Action, Memory, NoMemory, Place, Plan, commit_word, entry_word, named_place, object_state,
    segment_entry, segment_pointer,
};
use std::alloc::Global;

// The actions of a part of one store: the store, a flush and a fence.
const STORE_ACTIONS: u32 = 3;

/// A plan that opens the session's transaction object. It has 3 actions.
pub fn plan_begin(alloc: Global, session: u8) -> Result<Plan, NoMemory>
    requires first { 1 ≤ session }
    requires last { session ≤ 16 }
    ensures { IfOk result (λ plan. plan.left ≡ plan_of (begin_parts (own_object session))) }
{
    let mut plan = Plan::with_room(alloc, STORE_ACTIONS)?;
    // From here on the transaction is open: opening undoes what its entries name, unless its commit word is set.
    plan.push_store(object_state(object_of(session)), 1);
    Ok(plan)
}

/// Adds the part of 3 actions that makes an entry the one at place `nth` of the session's transaction, of which its
/// object has the first 60 and each ready segment 255 more. It takes no memory.
pub fn push_entry<M: Memory>(plan: &mut Plan, mem: &M, session: u8, nth: u32, entry: Entry)
    requires first { 1 ≤ session }
    requires last { session ≤ 16 }
    requires rule { 60 ≤ nth → Keeps (M.device mem.now).cached (object_rule (own_object session)) }
    requires there { nth < length (entry_places (M.device mem.now).cached (own_object session)) }
    requires table { entry.table < 2 ^ 24 }
    requires room { 2 < plan.old.spare }
    ensures left { plan.new.left ≡ plan.old.left
        ++ part_actions (entry_part (M.device mem.now).cached (own_object session) nth entry) }
    ensures spare { plan.new.spare + 3 ≡ plan.old.spare }
{
    // From here on the entry is the transaction's: what it names may be stored behind it.
    plan.push_store(entry_place(mem, object_of(session), nth), entry.word());
}

/// Room that is enough for the actions that `push_retire` adds, for as many entries and, where `word` says so, the
/// commit word: exactly a store and a flush for each of them, a fence, and the 3 actions of the first part.
pub fn retire_room(entries: u32, word: bool) -> u32
    requires { entries ≤ 8220 }
    ensures enough { (words : List ℕ) (object : ℕ) → entries ≤ length (entry_places words object) →
        length (plan_of (retire_parts words object entries word)) ≤ result }
    ensures exact { result ≡ 2 * (entries + (if word then 1 else 0)) + 4 }
{
    STORE_ACTIONS + 2 * (entries + u32::from(word)) + 1
}

/// Adds the parts that end the session's transaction: its object becomes idle, and then its first `entries` entry words
/// and, where `word` says that it is set, its commit word are cleared. It takes no memory.
pub fn push_retire<M: Memory>(plan: &mut Plan, mem: &M, session: u8, entries: u32, word: bool)
    requires first { 1 ≤ session }
    requires last { session ≤ 16 }
    requires rule { 60 < entries → Keeps (M.device mem.now).cached (object_rule (own_object session)) }
    requires there { entries ≤ length (entry_places (M.device mem.now).cached (own_object session)) }
    requires room { length (plan_of (retire_parts (M.device mem.now).cached (own_object session) entries word))
        ≤ plan.old.spare }
    ensures left { plan.new.left ≡ plan.old.left
        ++ plan_of (retire_parts (M.device mem.now).cached (own_object session) entries word) }
    ensures spare { plan.new.spare
        + length (plan_of (retire_parts (M.device mem.now).cached (own_object session) entries word)) ≡ plan.old.spare }
{
    let object = object_of(session);
    // The object is idle before its words are cleared: else opening would undo what it had no entry for any more.
    plan.push_store(object_state(object), 0);
    if entries > 0 || word {
        push_clear(plan, mem, object, entries, word);
    }
}

// Adds the part that clears so many entries and, where `word` says so, the commit word.
fn push_clear<M: Memory>(plan: &mut Plan, mem: &M, object: u8, entries: u32, word: bool)
    requires object { object < 16 }
    requires rule { 60 < entries → Keeps (M.device mem.now).cached (object_rule object) }
    requires there { entries ≤ length (entry_places (M.device mem.now).cached object) }
    requires some { IsTrue (not (entries == 0) || word) }
    requires room { length (part_actions (clear_part (M.device mem.now).cached object entries word)) ≤ plan.old.spare }
    ensures left { plan.new.left ≡ plan.old.left
        ++ part_actions (clear_part (M.device mem.now).cached object entries word) }
    ensures spare { plan.new.spare + length (part_actions (clear_part (M.device mem.now).cached object entries word))
        ≡ plan.old.spare }
{
    push_clear_stores(plan, mem, object, entries, word);
    plan.end_part(entries + u32::from(word));
}

// Adds the stores of that part.
fn push_clear_stores<M: Memory>(plan: &mut Plan, mem: &M, object: u8, entries: u32, word: bool)
    requires object { object < 16 }
    requires rule { 60 < entries → Keeps (M.device mem.now).cached (object_rule object) }
    requires there { entries ≤ length (entry_places (M.device mem.now).cached object) }
    requires room { entries + (if word then 1 else 0) ≤ plan.old.spare }
    ensures left { plan.new.left ≡ plan.old.left ++ clear_part (M.device mem.now).cached object entries word }
    ensures spare { plan.new.spare + (entries + (if word then 1 else 0)) ≡ plan.old.spare }
{
    push_entry_zeros(plan, mem, object, entries);
    if word {
        plan.push(Action::Store {
            place: commit_word(object),
            value: 0,
        });
    }
}

// Adds a store of 0 at each of the first entries of an object, so many of them.
fn push_entry_zeros<M: Memory>(plan: &mut Plan, mem: &M, object: u8, entries: u32)
    requires object { object < 16 }
    requires rule { 60 < entries → Keeps (M.device mem.now).cached (object_rule object) }
    requires there { entries ≤ length (entry_places (M.device mem.now).cached object) }
    requires room { entries ≤ plan.old.spare }
    ensures left { plan.new.left ≡ plan.old.left
        ++ stores 0 (take entries (entry_places (M.device mem.now).cached object)) }
    ensures spare { plan.new.spare + entries ≡ plan.old.spare }
{
    let own = entries.min(OWN_ENTRIES);
    push_zeros(plan, entry_word(object, 0), own);
    let more = entries - own;
    let mut pointer = segment_pointer(object);
    for segment in 0..more.div_ceil(MORE_ENTRIES) {
        let first = named_place(mem, pointer);
        let count = (more - MORE_ENTRIES * segment).min(MORE_ENTRIES);
        push_zeros(plan, segment_entry(first, 0), count);
        pointer = first;
    }
}

/// Adds a store of 0 at each of so many places in a row.
pub(crate) fn push_zeros(plan: &mut Plan, first: Place, count: u32)
    requires within { first.0 + count ≤ 4194304 }
    requires room { count ≤ plan.old.spare }
    ensures left { plan.new.left ≡ plan.old.left ++ stores 0 (range_with_len first.0 count) }
    ensures spare { plan.new.spare + count ≡ plan.old.spare }
{
    for nth in 0..count {
        plan.push(Action::Store {
            place: Place(first.0 + nth),
            value: 0,
        });
    }
}
