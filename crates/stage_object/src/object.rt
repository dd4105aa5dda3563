// The words of a session's transaction object in a stage image, and the parts of plans that change them.
ghost use Rattle.std.specs.Prelude.{◌≡◌, ◌+◌, ◌^◌, ◌<◌, ◌≤◌, ◌||◌, ◌==◌, ◌++◌, not, if◌then◌else◌, length, IfOk, IsTrue};
ghost use Rattle.pm_model.specs.Plans.{part_actions, plan_of, one_store};
ghost use Rattle.txn_object.specs.Object.{own_object};
ghost use Rattle.stage_object.specs.Object.{entries_in, free_entries_in, entry_part, clear_part, clear_length, retire_parts, retire_length};

use pm_model::{
    Action, Memory, NoMemory, OBJECT_ENTRIES, Place, Plan, commit_word, entry_word, object_state,
};
use std::alloc::Global;
use txn_object::{Entry, EntryList, object_of};

// The actions of a part of one store: the store, a flush and a fence.
const STORE_ACTIONS: u32 = 3;

/// The entries of the session's transaction, in order.
pub fn entries<M: Memory>(alloc: Global, mem: &M, session: u8) -> Result<EntryList, NoMemory>
    requires first { 1 ≤ session }
    requires last { session ≤ 16 }
    ensures { IfOk result (λ list. list.entries ≡ entries_in (M.device mem.now).cached (own_object session)) }
{
    let object = object_of(session);
    let mut list = EntryList::with_room(alloc, u32::from(OBJECT_ENTRIES))?;
    for nth in 0..OBJECT_ENTRIES {
        let word = mem.load(entry_word(object, nth));
        if word == 0 {
            break;
        }
        list.push(Entry::of_word(word));
    }
    Ok(list)
}

/// How many entry words of the session's transaction object are 0.
pub fn free_entries<M: Memory>(mem: &M, session: u8) -> u32
    requires first { 1 ≤ session }
    requires last { session ≤ 16 }
    ensures { result ≡ free_entries_in (M.device mem.now).cached (own_object session) }
{
    let object = object_of(session);
    let mut free = 0;
    for nth in 0..OBJECT_ENTRIES {
        if mem.load(entry_word(object, nth)) == 0 {
            free += 1;
        }
    }
    free
}

/// Adds the part of 3 actions that makes an entry the one at place `nth` of the session's transaction. It takes no
/// memory.
pub fn push_entry(plan: &mut Plan, session: u8, nth: u32, entry: Entry)
    requires first { 1 ≤ session }
    requires last { session ≤ 16 }
    requires in_object { nth < 60 }
    requires table { entry.table < 2 ^ 24 }
    requires room { 2 < plan.old.spare }
    ensures left { plan.new.left ≡ plan.old.left ++ part_actions (entry_part (own_object session) nth entry) }
    ensures spare { plan.new.spare + 3 ≡ plan.old.spare }
{
    // From here on the entry is the transaction's: what it names may be stored behind it.
    plan.push_store(entry_word(object_of(session), nth as u8), entry.word());
}

/// How many actions `push_retire` adds.
pub fn retire_actions(entries: u32, word: bool) -> u32
    requires { entries ≤ 60 }
    ensures { result ≡ retire_length entries word }
{
    if entries == 0 && !word {
        STORE_ACTIONS
    } else {
        STORE_ACTIONS + entries + u32::from(word) + (entries + 3) / 8 + 2
    }
}

/// Adds the parts that end the session's transaction: its object becomes idle, and then its first `entries` entries
/// and, where `word` says that it is set, its commit word are cleared. It takes no memory.
pub fn push_retire(plan: &mut Plan, session: u8, entries: u32, word: bool)
    requires first { 1 ≤ session }
    requires last { session ≤ 16 }
    requires in_object { entries ≤ 60 }
    requires room { retire_length entries word ≤ plan.old.spare }
    ensures left { plan.new.left ≡ plan.old.left ++ plan_of (retire_parts (own_object session) entries word) }
    ensures spare { plan.new.spare + retire_length entries word ≡ plan.old.spare }
{
    let object = object_of(session);
    // The object is idle before its words are cleared: else opening would undo what it had no entry for any more.
    plan.push_store(object_state(object), 0);
    if entries > 0 || word {
        push_clear(plan, object, entries, word);
    }
}

// Adds the part that clears so many entries and, where `word` says so, the commit word.
fn push_clear(plan: &mut Plan, object: u8, entries: u32, word: bool)
    requires object { object < 16 }
    requires in_object { entries ≤ 60 }
    requires some { IsTrue (not (entries == 0) || word) }
    requires room { clear_length entries word ≤ plan.old.spare }
    ensures left { plan.new.left ≡ plan.old.left ++ part_actions (clear_part object entries word) }
    ensures spare { plan.new.spare + clear_length entries word ≡ plan.old.spare }
{
    push_clear_stores(plan, object, entries, word);
    plan.end_part(entries + u32::from(word));
}

// Adds the stores of that part.
fn push_clear_stores(plan: &mut Plan, object: u8, entries: u32, word: bool)
    requires object { object < 16 }
    requires in_object { entries ≤ 60 }
    requires room { entries + (if word then 1 else 0) ≤ plan.old.spare }
    ensures left { plan.new.left ≡ plan.old.left ++ clear_part object entries word }
    ensures spare { plan.new.spare + (entries + (if word then 1 else 0)) ≡ plan.old.spare }
{
    for nth in 0..entries {
        plan.push(Action::Store {
            place: entry_word(object, nth as u8),
            value: 0,
        });
    }
    if word {
        plan.push(Action::Store {
            place: commit_word(object),
            value: 0,
        });
    }
}
