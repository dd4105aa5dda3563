// An object that is extended until it has all its segments, which have no entries.
ghost use Rattle.std.specs.Prelude.{◌≡◌, IfOk};
ghost use Rattle.image_layout.specs.Checks.{Keeps};
ghost use Rattle.image_layout.specs.EntryRules.{object_rule};
ghost use Rattle.pm_model.specs.Plain.{device_of};
ghost use Rattle.txn_object.specs.TestObject.{IsExtendable};

use heap_palloc::Heap;
use pm_model::{Action, Memory, NoMemory, Place, Plain, Plan};
use std::alloc::Global;
use std::test::Fail;
use test_ground::{extend, formatted_heap};
use txn_object::{
    Entry, EntryKind, EntryList, ExtendError, entries, free_entries, plan_begin, push_entry,
    push_retire, retire_room,
};

const ENDED: Entry = Entry {
    kind: EntryKind::Ended,
    table: 3,
    row: 5,
};

// A formatted image of one segment, and its heap.
pub(crate) fn formatted(alloc: Global) -> Result<(Plain, Heap), NoMemory>
    ensures { IfOk result (λ made. IsExtendable (device_of made.0) made.1) }
{
    let (memory, heap) = formatted_heap(alloc, 1)?;
    Ok((memory, heap))
}

// Extends the object until it has all its segments, and says whether each plan has 314 actions.
pub(crate) fn fill<M: Memory>(
    alloc: Global,
    memory: &mut M,
    heap: &mut Heap,
) -> Result<bool, ExtendError>
    requires { IsExtendable (M.device memory.old) heap.old }
    ensures { IsExtendable (M.device memory.new) heap.new }
{
    let mut same = true;
    for segment in 0..32 {
        let actions = extend(alloc, memory, heap)?;
        same = same && actions == 314;
    }
    Ok(same)
}

// The store that enters a row as the one at a place, where all segments are ready.
fn entry_store<M: Memory>(alloc: Global, memory: &M, nth: u32) -> Result<Option<Action>, NoMemory>
    requires { Keeps (M.device memory.now).cached (object_rule 0) }
{
    if memory.load(Place(1026)) != 32 {
        return Ok(None);
    }
    if nth >= 8_220 {
        return Ok(None);
    }
    let mut plan = Plan::with_room(alloc, 3)?;
    push_entry(&mut plan, memory, 1, nth, ENDED);
    Ok(plan.next())
}

// Whether the object's entries have these places: its segments stand in pages 4 to 35, from word 8 of each on.
fn places_are<M: Memory>(alloc: Global, memory: &M, table: &[(u32, u32)]) -> Result<bool, NoMemory>
    requires { Keeps (M.device memory.now).cached (object_rule 0) }
{
    let value = 144_115_200_960_757_765;
    let mut same = true;
    for (nth, place) in table {
        let store = entry_store(alloc, memory, *nth)?;
        let place = Place(*place);
        same = same && store == Some(Action::Store { place, value });
    }
    Ok(same)
}

// Of a filled object: whether each extension has its actions and each entry its place, the ready segments, the pointer
// to the first, the free entries, whether there are no entries, and what the next extension answers.
type Filled = (bool, u64, u64, u32, bool, Option<ExtendError>);

const PLACES: [(u32, u32); 6] = [
    (0, 1_028),
    (59, 1_087),
    (60, 2_057),
    (314, 2_311),
    (315, 2_569),
    (8_219, 18_183),
];

// What is seen of an object without entries, and what its next extension answers.
fn seen<M: Memory>(alloc: Global, memory: &mut M, heap: &mut Heap) -> Result<Filled, NoMemory>
    requires { IsExtendable (M.device memory.old) heap.old }
{
    let placed = places_are(alloc, memory, &PLACES)?;
    let ready = memory.load(Place(1026));
    let pointer = memory.load(Place(1027));
    let free = free_entries(memory, 1);
    let none = entries(alloc, memory, 1)?.is_empty();
    let next = extend(alloc, memory, heap).err();
    Ok((placed, ready, pointer, free, none, next))
}

fn filled<M: Memory>(alloc: Global, memory: &mut M, heap: &mut Heap) -> Result<Filled, ExtendError>
    requires { IsExtendable (M.device memory.old) heap.old }
{
    let same = fill(alloc, memory, heap)?;
    let seen = seen(alloc, memory, heap)?;
    Ok((same && seen.0, seen.1, seen.2, seen.3, seen.4, seen.5))
}

// Of the object of a formatted image.
fn filled_image(alloc: Global) -> Result<Filled, ExtendError> {
    let (mut memory, mut heap) = formatted(alloc)?;
    let filled = filled(alloc, &mut memory, &mut heap);
    drop(heap);
    drop(memory);
    filled
}

#[test]
fn an_object_is_filled_with_segments(rt: HostRuntime) {
    let full = Some(ExtendError::WriteSetFull);
    let filled = (true, 32, 4_294_969_352, 8_220, true, full);
    assert!(rt; filled_image(rt.alloc()) == Ok(filled));
}

// How many actions the retire of session 16's transaction without entries has.
fn retire_actions<M: Memory>(alloc: Global, memory: &M) -> Result<u32, NoMemory> {
    let mut plan = Plan::with_room(alloc, 3)?;
    push_retire(&mut plan, memory, 16, 0, false);
    Ok(plan.len())
}

#[test]
fn plans_have_their_actions(rt: HostRuntime) -> Result<(), Fail> {
    assert_eq!(rt; plan_begin(rt.alloc(), 16)?.len(), 3);
    assert_eq!(rt; retire_room(8_220, true), 16_446);
    let (memory, heap) = formatted(rt.alloc())?;
    let actions = retire_actions(rt.alloc(), &memory);
    drop(heap);
    drop(memory);
    assert_eq!(rt; actions, Ok(3));
    Ok(())
}

#[test]
fn a_list_takes_its_entries(rt: HostRuntime) -> Result<(), Fail> {
    let mut list = EntryList::with_room(rt.alloc(), 2)?;
    list.push(ENDED);
    assert_eq!(rt; list.spare(), 1);
    assert_eq!(rt; list.get(0), Entry::of_word(ENDED.word()));
    Ok(())
}
