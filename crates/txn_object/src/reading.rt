// Reading the entries of a transaction object.
ghost use Rattle.std.specs.Prelude.{◌≡◌, ◌+◌, ◌<◌, ◌≤◌, ◌==◌, ◌++◌, ℕ, not, map, filter, count_by, IfOk, length, slice_index};
ghost use Rattle.std.specs.List.{range_with_len};
ghost use Rattle.image_layout.specs.Checks.{Keeps};
ghost use Rattle.image_layout.specs.EntryRules.{object_rule};
ghost use Rattle.txn_object.specs.Entries.{entry_of};
ghost use Rattle.txn_object.specs.Object.{entries_in, free_entries_in, own_object, NoEntryFollowsZero};

use crate::entry::{Entry, EntryList};
use crate::segments::{MORE_ENTRIES, OWN_ENTRIES, object_of, ready};
use pm_model::{Memory, NoMemory, Place, entry_word, named_place, segment_entry, segment_pointer};
use std::alloc::Global;

/// The entries of the session's transaction, in order. It takes time as there are entries, and a little for each ready
/// segment.
pub fn entries<M: Memory>(alloc: Global, mem: &M, session: u8) -> Result<EntryList, NoMemory>
    requires first { 1 ≤ session }
    requires last { session ≤ 16 }
    requires rule { Keeps (M.device mem.now).cached (object_rule (own_object session)) }
    requires packed { NoEntryFollowsZero (M.device mem.now).cached (own_object session) }
    ensures { IfOk result (λ list. list.entries ≡ entries_in (M.device mem.now).cached (own_object session)) }
{
    let object = object_of(session);
    let ready = ready(mem, object);
    let mut list = EntryList::with_room(alloc, OWN_ENTRIES + MORE_ENTRIES * ready)?;
    read_run(mem, entry_word(object, 0), OWN_ENTRIES, &mut list);
    let mut pointer = segment_pointer(object);
    for segment in 0..ready {
        let first = named_place(mem, pointer);
        read_run(mem, segment_entry(first, 0), MORE_ENTRIES, &mut list);
        pointer = first;
    }
    Ok(list)
}

// Adds the entries that stand in so many words in a row.
fn read_run<M: Memory>(mem: &M, first: Place, count: u32, list: &mut EntryList)
    requires within { first.0 + count ≤ length (M.device mem.now).cached }
    requires packed { (nth : ℕ) → nth + 1 < count → slice_index (M.device mem.now).cached (first.0 + nth) ≡ 0 →
        slice_index (M.device mem.now).cached (first.0 + (nth + 1)) ≡ 0 }
    requires room { count ≤ list.old.spare }
    ensures entries { list.new.entries ≡ list.old.entries
        ++ map entry_of (filter (λ word. not (word == 0))
        (map (slice_index (M.device mem.now).cached) (range_with_len first.0 count))) }
    ensures spare { list.old.spare ≤ list.new.spare + count }
{
    for nth in 0..count {
        let word = mem.load(Place(first.0 + nth));
        if word == 0 {
            break;
        }
        list.push(Entry::of_word(word));
    }
}

/// How many entry words of the session's transaction object and its ready segments are 0.
pub fn free_entries<M: Memory>(mem: &M, session: u8) -> u32
    requires first { 1 ≤ session }
    requires last { session ≤ 16 }
    requires rule { Keeps (M.device mem.now).cached (object_rule (own_object session)) }
    ensures { result ≡ free_entries_in (M.device mem.now).cached (own_object session) }
{
    let object = object_of(session);
    let ready = ready(mem, object);
    let mut free = free_in_run(mem, entry_word(object, 0), OWN_ENTRIES);
    let mut pointer = segment_pointer(object);
    for segment in 0..ready {
        let first = named_place(mem, pointer);
        free += free_in_run(mem, segment_entry(first, 0), MORE_ENTRIES);
        pointer = first;
    }
    free
}

// How many of so many words in a row are 0.
fn free_in_run<M: Memory>(mem: &M, first: Place, count: u32) -> u32
    requires within { first.0 + count ≤ length (M.device mem.now).cached }
    ensures free { result ≡ count_by (λ at. slice_index (M.device mem.now).cached at == 0)
        (range_with_len first.0 count) }
    ensures most { result ≤ count }
{
    let mut free = 0;
    for nth in 0..count {
        if mem.load(Place(first.0 + nth)) == 0 {
            free += 1;
        }
    }
    free
}
