//! A whole transaction: it begins, enters as many rows as there are places, and is retired.
ghost use Rattle.std.specs.Prelude.{◌+◌, ◌^◌, ◌<◌, ◌≤◌, IfOk};
ghost use Rattle.txn_object.specs.TestObject.{IsExtendable, HasEntries};

use crate::segments::{fill, formatted};
use heap_palloc::Heap;
use pm_model::{Memory, NoMemory, Place, Plan, commit_word, ready_segments};
use std::alloc::Global;
use std::process::Abort;
use test_ground::{begin, play_whole};
use txn_object::{
    Entry, EntryKind, ExtendError, entries, free_entries, push_entry, push_retire, retire_room,
};

// The places of an object with all its segments.
const PLACES: u32 = 8_220;

// All segments are ready.
fn check_ready<M: Memory>(rt: &impl Abort, memory: &M, _heap: &Heap)
    requires { IsExtendable (M.device memory.now) _heap.now }
    ensures { HasEntries (M.device memory.now) 32 0 }
{
    if memory.load(ready_segments(0)) != 32 {
        panic!(rt; "not all segments are ready");
    }
}

// The entry at a place: rows that differ, of 32 tables and of both kinds.
fn row(nth: u32) -> Entry
    requires { nth < 8220 }
    ensures table { result.table < 2 ^ 24 }
    ensures row { result.row < 2 ^ 32 }
{
    let kind = if nth % 2 == 0 {
        EntryKind::Created
    } else {
        EntryKind::Ended
    };
    Entry {
        kind,
        table: nth % 32,
        row: 130_559 - nth,
    }
}

// Plays the entry at a place.
fn enter<M: Memory>(alloc: Global, memory: &mut M, nth: u32) -> Result<(), NoMemory>
    requires entries { HasEntries (M.device memory.old) 32 nth }
    requires there { nth < 8220 }
    ensures { IfOk result (λ _. HasEntries (M.device memory.new) 32 (nth + 1)) }
{
    let mut plan = Plan::with_room(alloc, 3)?;
    push_entry(&mut plan, memory, 1, nth, row(nth));
    play_whole(memory, 1, &mut plan);
    Ok(())
}

// Plays those at the places up to a number.
fn enter_up_to<M: Memory>(alloc: Global, memory: &mut M, from: u32, to: u32) -> Result<(), NoMemory>
    requires entries { HasEntries (M.device memory.old) 32 from }
    requires range { from ≤ to }
    requires most { to ≤ 8220 }
    ensures { IfOk result (λ _. HasEntries (M.device memory.new) 32 to) }
{
    for nth in from..to {
        enter(alloc, memory, nth)?;
    }
    Ok(())
}

// Whether exactly so many entries are read back, and the other places are free.
fn entries_are<M: Memory>(alloc: Global, memory: &M, count: u32) -> Result<bool, NoMemory>
    requires entries { HasEntries (M.device memory.now) 32 count }
    requires most { count ≤ 8220 }
{
    let list = entries(alloc, memory, 1)?;
    if list.len() != count {
        return Ok(false);
    }
    let mut same = free_entries(memory, 1) == PLACES - count;
    for nth in 0..count {
        same = same && list.get(nth) == row(nth);
    }
    Ok(same)
}

fn enter_and_read<M: Memory>(
    alloc: Global,
    memory: &mut M,
    from: u32,
    to: u32,
) -> Result<bool, NoMemory>
    requires entries { HasEntries (M.device memory.old) 32 from }
    requires range { from ≤ to }
    requires most { to ≤ 8220 }
    ensures { IfOk result (λ _. HasEntries (M.device memory.new) 32 to) }
{
    enter_up_to(alloc, memory, from, to)?;
    let same = entries_are(alloc, memory, to)?;
    Ok(same)
}

// Enters at all places, and reads before and behind the last one of the object and of its first segment.
fn enter_all<M: Memory>(alloc: Global, memory: &mut M) -> Result<bool, NoMemory>
    requires { HasEntries (M.device memory.old) 32 0 }
    ensures { IfOk result (λ _. HasEntries (M.device memory.new) 32 8220) }
{
    let mut same = enter_and_read(alloc, memory, 0, 59)?;
    same = enter_and_read(alloc, memory, 59, 60)? && same;
    same = enter_and_read(alloc, memory, 60, 61)? && same;
    same = enter_and_read(alloc, memory, 61, 314)? && same;
    same = enter_and_read(alloc, memory, 314, 315)? && same;
    same = enter_and_read(alloc, memory, 315, 316)? && same;
    Ok(enter_and_read(alloc, memory, 316, PLACES)? && same)
}

// Plays the store of a commit word.
fn set_commit_word<M: Memory>(alloc: Global, memory: &mut M) -> Result<(), NoMemory>
    requires { HasEntries (M.device memory.old) 32 8220 }
    ensures { IfOk result (λ _. HasEntries (M.device memory.new) 32 8220) }
{
    let mut plan = Plan::with_room(alloc, 3)?;
    plan.push_store(commit_word(0), 1);
    play_whole(memory, 1, &mut plan);
    Ok(())
}

// Retires the transaction, with its commit word.
fn retire<M: Memory>(alloc: Global, memory: &mut M) -> Result<(), NoMemory>
    requires { HasEntries (M.device memory.old) 32 8220 }
    ensures { IfOk result (λ _. HasEntries (M.device memory.new) 32 0) }
{
    let mut plan = Plan::with_room(alloc, retire_room(PLACES, true))?;
    push_retire(&mut plan, memory, 1, PLACES, true);
    play_whole(memory, 1, &mut plan);
    Ok(())
}

// Whether so many words from a place on are 0.
fn are_zeros<M: Memory>(memory: &M, first: u32, count: u32) -> bool
    requires { first + count < 2 ^ 32 }
{
    for place in first..first + count {
        if place >= memory.len() || memory.load(Place(place)) != 0 {
            return false;
        }
    }
    true
}

// Whether the object is idle, and its words but for the segments and their pointers are 0. Its segments stand in pages
// 4 to 35.
fn is_idle<M: Memory>(memory: &M) -> bool {
    let mut idle = are_zeros(memory, 1_024, 2) && are_zeros(memory, 1_028, 60);
    for page in 4..36 {
        idle = idle && are_zeros(memory, 512 * page + 9, 255);
    }
    idle
}

// Retires the transaction of all places, and enters into the next one. Whether the object is idle between them, and has
// its entries then.
fn retire_and_enter<M: Memory>(alloc: Global, memory: &mut M) -> Result<bool, NoMemory>
    requires { HasEntries (M.device memory.old) 32 8220 }
{
    set_commit_word(alloc, memory)?;
    retire(alloc, memory)?;
    let idle = is_idle(memory) && entries_are(alloc, memory, 0)?;
    Ok(enter_and_read(alloc, memory, 0, 61)? && idle)
}

// Begins a transaction, fills its object with segments, and then with entries, and retires it.
fn whole<M: Memory>(
    rt: &impl Abort,
    alloc: Global,
    memory: &mut M,
    heap: &mut Heap,
) -> Result<bool, ExtendError>
    requires { IsExtendable (M.device memory.old) heap.old }
{
    begin(alloc, memory, heap)?;
    let filled = fill(alloc, memory, heap)?;
    check_ready(rt, memory, heap);
    let entered = enter_all(alloc, memory)?;
    Ok(retire_and_enter(alloc, memory)? && entered && filled)
}

fn whole_on_an_image(rt: &impl Abort, alloc: Global) -> Result<bool, ExtendError> {
    let (mut memory, mut heap) = formatted(alloc)?;
    let done = whole(rt, alloc, &mut memory, &mut heap);
    drop(heap);
    drop(memory);
    done
}

#[test]
fn a_transaction_fills_its_object(rt: HostRuntime) {
    assert!(rt; whole_on_an_image(&rt, rt.alloc()) == Ok(true));
}
