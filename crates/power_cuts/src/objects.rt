//! An image with one table, and an open transaction of session 1 that created 63 rows of it, which fill its object and
//! begin a segment.
ghost use Rattle.std.specs.Prelude.{◌≡◌, ℕ, ◌+◌, ◌<◌, ◌≤◌, None, IfOk, length, slice_index};
ghost use Rattle.image_layout.specs.Fixed.{lane_op_at, ready_at, first_segment_at};
ghost use Rattle.image_layout.specs.Places.{place_in};
ghost use Rattle.image_layout.specs.Checks.{first_fault};
ghost use Rattle.pm_model.specs.Device.{IsClean};
ghost use Rattle.pm_model.specs.Plain.{device_of};
ghost use Rattle.pmem_recover.specs.EntryRules.{entry_rules};
ghost use Rattle.txn_object.specs.TestObject.{IsExtendable, HasEntries};

use crate::opening::is_sound;
use heap_palloc::{AllocError, Heap, plan_allocate, reopen};
use pm_model::{
    ENTRY_SEGMENT_WORDS, Keep, Memory, NoMemory, PPtr, Place, Plain, Plan, lane_op, ready_segments,
    segment_pointer,
};
use pmem_recover::check_entry;
use std::alloc::Global;
use std::ops::Range;
use std::process::Abort;
use test_ground::{begin, changed_image, extend, play_whole};
use txn_object::{Entry, EntryKind, free_entries, push_entry};

// A table of one column of integers, without rows, on a formatted image of one segment: its block is the first slot of
// page 4, and its arrays of creators, enders and codes are the pages 5 to 7.
const TABLE: [(usize, u64); 18] = [
    (4, 6),
    (5, 17),
    (6, 17),
    (7, 17),
    (515, 1),
    (520, 4_294_969_352),
    (2_048, 1),
    (2_056, 1),
    (2_058, 116),
    (2_062, 1),
    (2_064, 1),
    (2_065, 4_294_969_856),
    (2_080, 1),
    (2_081, 4_294_970_368),
    (2_096, 1),
    (2_097, 97),
    (2_104, 1),
    (2_105, 4_294_970_880),
];

// Makes words of an image other than 0, as words of pages that were used.
pub(crate) fn use_words(words: &mut [u64], places: Range<u32>) {
    for place in places {
        if let Some(word) = words.get_mut(place as usize) {
            *word = 9;
        }
    }
}

// The image of that table, with words that aren't 0 in the free pages 8 and 9, on which two segments are allocated.
fn table_image(rt: &impl Abort, alloc: Global) -> Result<Plain, NoMemory>
    ensures { IfOk result (λ memory. (w : ℕ) → IsClean (device_of memory) w) }
{
    let mut words = changed_image(alloc, 1, &TABLE)?;
    use_words(&mut words, 4_096..5_120);
    assert!(rt; words.len() == 32768);
    assert!(rt; is_sound(rt, alloc, &words));
    let memory = Plain::new(alloc, words)?;
    Ok(memory)
}

// The heap of an image whose first object has no segment and no entries.
fn idle_heap<M: Memory>(rt: &impl Abort, alloc: Global, memory: &M) -> Result<Heap, NoMemory>
    requires rules { first_fault entry_rules (M.device memory.now).cached ≡ None }
    requires idle { slice_index (M.device memory.now).cached (lane_op_at 0) ≡ 0 }
    requires none { slice_index (M.device memory.now).cached (ready_at 0) ≡ 0 }
    requires pointer { slice_index (M.device memory.now).cached (first_segment_at 0) ≡ 0 }
    requires clean { (w : ℕ) → IsClean (M.device memory.now) w }
    ensures { IfOk result (λ heap. IsExtendable (M.device memory.now) heap) }
{
    if free_entries(memory, 1) != 60 {
        panic!(rt; "the object has entries");
    }
    let heap = reopen(alloc, memory)?;
    Ok(heap)
}

fn heap_of<M: Memory>(rt: &impl Abort, alloc: Global, memory: &M) -> Result<Heap, NoMemory>
    requires { (w : ℕ) → IsClean (M.device memory.now) w }
    ensures { IfOk result (λ heap. IsExtendable (M.device memory.now) heap) }
{
    let words = memory.choose(Keep::All)?;
    assert_eq!(rt; memory.load(lane_op(0)), 0);
    assert_eq!(rt; memory.load(ready_segments(0)), 0);
    assert_eq!(rt; memory.load(segment_pointer(0)), 0);
    match check_entry(alloc, &words) {
        Ok(()) => idle_heap(rt, alloc, memory),
        Err(_) => panic!(rt; "the image breaks a rule"),
    }
}

// The first word of an object's first segment, behind which the pointer to the next one stands.
fn first_segment<M: Memory>(rt: &impl Abort, memory: &M) -> Place
    ensures place { result.0 ≡ place_in (slice_index (M.device memory.now).cached (first_segment_at 0)) }
    ensures in_image { result.0 < length (M.device memory.now).cached }
{
    let word = memory.load(segment_pointer(0));
    let Some(pointer) = PPtr::try_read(word, memory.len()) else {
        panic!(rt; "the segment has a place")
    };
    let Some(place) = pointer.place() else {
        panic!(rt; "the object has a segment")
    };
    assert!(rt; place.0 < memory.len());
    place
}

// Allocates a segment behind the ready one, and doesn't make it ready.
fn own_next<M: Memory>(
    rt: &impl Abort,
    alloc: Global,
    memory: &mut M,
    heap: &mut Heap,
) -> Result<(), AllocError>
    requires { IsExtendable (M.device memory.old) heap.old }
    ensures { IsExtendable (M.device memory.new) heap.new }
{
    let owner = first_segment(rt, memory);
    if memory.load(ready_segments(0)) != 1 {
        panic!(rt; "one segment is ready");
    }
    if memory.load(owner) != 0 {
        panic!(rt; "the object owns the next segment");
    }
    let (mut plan, _) = plan_allocate(alloc, memory, heap, 0, ENTRY_SEGMENT_WORDS, owner)?;
    play_whole(memory, 1, &mut plan);
    Ok(())
}

// What the object has behind its ready segment: nothing, or a segment that isn't ready.
#[derive(Clone, Copy)]
pub(crate) enum Behind {
    Nothing,
    Segment,
}

fn put_behind<M: Memory>(
    rt: &impl Abort,
    alloc: Global,
    memory: &mut M,
    heap: &mut Heap,
    behind: Behind,
)
    requires { IsExtendable (M.device memory.old) heap.old }
    ensures { IsExtendable (M.device memory.new) heap.new }
{
    match behind {
        Behind::Nothing => (),
        Behind::Segment => assert!(rt; own_next(rt, alloc, memory, heap).is_ok()),
    }
}

// One segment is ready.
fn check_ready<M: Memory>(rt: &impl Abort, memory: &M, _heap: &Heap)
    requires { IsExtendable (M.device memory.now) _heap.now }
    ensures { HasEntries (M.device memory.now) 1 0 }
{
    if memory.load(ready_segments(0)) != 1 {
        panic!(rt; "one segment is ready");
    }
}

// Plays the entry of a row at the place of its number.
fn enter<M: Memory>(alloc: Global, memory: &mut M, row: u32) -> Result<(), NoMemory>
    requires entries { HasEntries (M.device memory.old) 1 row }
    requires there { row < 63 }
    ensures { IfOk result (λ _. HasEntries (M.device memory.new) 1 (row + 1)) }
{
    let entry = Entry {
        kind: EntryKind::Created,
        table: 0,
        row,
    };
    let mut plan = Plan::with_room(alloc, 3)?;
    push_entry(&mut plan, memory, 1, row, entry);
    play_whole(memory, 1, &mut plan);
    Ok(())
}

// Plays the begin of a transaction, and its entries: it creates the rows 0 to 62 of the table.
fn transaction<M: Memory>(
    rt: &impl Abort,
    alloc: Global,
    memory: &mut M,
    heap: &Heap,
) -> Result<(), NoMemory>
    requires { IsExtendable (M.device memory.old) heap.now }
    ensures { IfOk result (λ _. HasEntries (M.device memory.new) 1 63) }
{
    begin(alloc, memory, heap)?;
    check_ready(rt, memory, heap);
    for row in 0..63 {
        enter(alloc, memory, row)?;
    }
    Ok(())
}

// Extends the object by a segment, and begins the transaction and makes its entries.
fn begin_on<M: Memory>(
    rt: &impl Abort,
    alloc: Global,
    memory: &mut M,
    behind: Behind,
) -> Result<(), NoMemory>
    requires { (w : ℕ) → IsClean (M.device memory.old) w }
    ensures { IfOk result (λ _. HasEntries (M.device memory.new) 1 63) }
{
    let mut heap = heap_of(rt, alloc, memory)?;
    assert!(rt; extend(alloc, memory, &mut heap).is_ok());
    put_behind(rt, alloc, memory, &mut heap, behind);
    transaction(rt, alloc, memory, &heap)
}

// The image in that transaction.
pub(crate) fn in_transaction(
    rt: &impl Abort,
    alloc: Global,
    behind: Behind,
) -> Result<Plain, NoMemory>
    ensures { IfOk result (λ memory. HasEntries (device_of memory) 1 63) }
{
    let mut memory = table_image(rt, alloc)?;
    begin_on(rt, alloc, &mut memory, behind)?;
    Ok(memory)
}
