// Planning the extension of a transaction object by a segment.
ghost use Rattle.std.specs.Prelude.{ℕ, ◌≡◌, ◌≢◌, ◌↔◌, ◌+◌, ◌%◌, ◌<◌, ◌≤◌, ◌++◌, Err, IfOk, OnErr, length, slice_index};
ghost use Rattle.pm_model.specs.Plans.{plan_of};
ghost use Rattle.image_layout.specs.Objects.{ready_count, pointer_after};
ghost use Rattle.heap_palloc.specs.Calls.{IsFull};
ghost use Rattle.txn_object.specs.declared.error.ExtendError.TheVariants.{WriteSetFull, Full};
ghost use Rattle.txn_object.specs.Extension.{readying_parts};
ghost use Rattle.txn_object.specs.Object.{own_object};
ghost use Rattle.txn_object.specs.Calls.{next_pointer, MayPlanExtension, IsExtensionPlanned, IsSegmentPlanned, HasNoRoom};

use crate::error::ExtendError;
use crate::object::push_zeros;
use crate::segments::{object_of, pointer_to, ready};
use heap_palloc::{Heap, plan_allocate};
use pm_model::{
    ENTRY_SEGMENT_WORDS, MAX_ENTRY_SEGMENTS, Memory, Place, Plan, named_place, ready_segments,
};
use std::alloc::Global;

// No more actions than the allocation of a segment has, which may make a small page first.
const ALLOCATION_ACTIONS: u32 = 23;

// The stores of 0 over a segment, their 32 flushes and a fence; and a store, a flush and a fence.
const READYING_ACTIONS: u32 = 256 + 33 + 3;

/// Plans the extension of the session's transaction object by a segment of 255 entries.
///
/// The segment is allocated through the session's lane, unless the object owns it already: an extension that was cut
/// can leave it owned and not ready. The plan may be played by any session, where the words that it writes are clean.
/// After an error the heap is as it was.
pub fn plan_extend<M: Memory>(
    alloc: Global,
    mem: &M,
    heap: &mut Heap,
    session: u8,
) -> Result<Plan, ExtendError>
    requires first { 1 ≤ session }
    requires last { session ≤ 16 }
    requires may { MayPlanExtension (M.device mem.now).cached heap.old (own_object session) }

    ensures planned { IfOk result (λ plan.
        IsExtensionPlanned (M.device mem.now).cached heap.old heap.new (own_object session) plan.left) }

    ensures write_set_full { ready_count (M.device mem.now).cached (own_object session) ≡ 32 ↔
        (result ≡ Err WriteSetFull) }
    ensures full { (need largest : ℕ) → result ≡ Err (Full need largest) →
        HasNoRoom (M.device mem.now).cached (own_object session) need largest }
    ensures room { IfOk result (λ _.
        next_pointer (M.device mem.now).cached (own_object session) ≡ 0 → IsFull (M.device mem.now).cached 256 → ⊥) }
    ensures unchanged { OnErr result (heap.new ≡ heap.old) }
{
    let object = object_of(session);
    let count = ready(mem, object);
    if count == MAX_ENTRY_SEGMENTS {
        return Err(ExtendError::WriteSetFull);
    }
    let mut plan = Plan::with_room(alloc, ALLOCATION_ACTIONS + READYING_ACTIONS)?;
    let segment = push_segment(alloc, mem, heap, object, count, &mut plan)?;
    push_readying(&mut plan, object, count, segment);
    Ok(plan)
}

// Adds the allocation of the next segment, unless the object owns it, and gives its place.
fn push_segment<M: Memory>(
    alloc: Global,
    mem: &M,
    heap: &mut Heap,
    object: u8,
    count: u32,
    plan: &mut Plan,
) -> Result<Place, ExtendError>
    requires object { object < 16 }
    requires may { MayPlanExtension (M.device mem.now).cached heap.old object }
    requires count { count ≡ ready_count (M.device mem.now).cached object }
    requires not_full { count < 32 }
    requires room { 23 ≤ plan.old.spare }
    ensures planned { IfOk result (λ segment.
        IsSegmentPlanned (M.device mem.now).cached heap.old heap.new object segment.0 plan.old.left plan.new.left) }
    ensures spare { IfOk result (λ _. plan.old.spare ≤ plan.new.spare + 23) }
    ensures not_write_set_full { result ≡ Err WriteSetFull → ⊥ }
    ensures full { (need largest : ℕ) → result ≡ Err (Full need largest) →
        HasNoRoom (M.device mem.now).cached object need largest }
    ensures fits { IfOk result (λ _.
        next_pointer (M.device mem.now).cached object ≡ 0 → IsFull (M.device mem.now).cached 256 → ⊥) }
    ensures unchanged { OnErr result (heap.new ≡ heap.old) }
{
    let owner = pointer_to(mem, object, count);
    if mem.load(owner) != 0 {
        return Ok(named_place(mem, owner));
    }
    let (allocation, segment) = plan_allocate(
        alloc,
        mem,
        heap,
        object,
        ENTRY_SEGMENT_WORDS,
        owner,
    )?;
    plan.append(allocation);
    Ok(segment.first)
}

// Adds the parts that make the words of a segment 0 and make it ready.
fn push_readying(plan: &mut Plan, object: u8, count: u32, segment: Place)
    requires object { object < 16 }
    requires count { count < 32 }
    requires line { segment.0 % 8 ≡ 0 }
    requires within { segment.0 + 256 ≤ 4194304 }
    requires room { 292 ≤ plan.old.spare }
    ensures { plan.new.left ≡ plan.old.left ++ plan_of (readying_parts object count segment.0) }
{
    push_zeros(plan, segment, ENTRY_SEGMENT_WORDS);
    // The fence comes before the count: else the segment's old words would be entries.
    plan.end_part(ENTRY_SEGMENT_WORDS);
    // From here on the segment is ready.
    plan.push_store(ready_segments(object), u64::from(count + 1));
}
