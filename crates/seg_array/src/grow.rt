// Planning the growth of an array.
ghost use Rattle.std.specs.Prelude.{◌≡◌, ◌≢◌, ◌⊎◌, ℕ, ◌+◌, ◌*◌, ◌<◌, ◌≤◌, ◌++◌, List, Err, IfOk, IfErr, OnErr, length, slice_index};
ghost use Rattle.pm_model.specs.Plans.{plan_of};
ghost use Rattle.image_layout.specs.Blocks.{longest_free_run};
ghost use Rattle.heap_big.specs.declared.run.Run.{Run};
ghost use Rattle.heap_big.specs.Fit.{TakesBestFit};
ghost use Rattle.heap_palloc.specs.Index.{IsIndexOf};
ghost use Rattle.seg_array.specs.declared.error.GrowError.TheVariants.{ArrayFull, Full, NoMemory as OutOfMemory};
ghost use Rattle.image_layout.specs.Arrays.{chunk_count, chunk_pages};
ghost use Rattle.seg_array.specs.Growth.{HasNoNext, next_pages, punches, publishing_parts};
ghost use Rattle.seg_array.specs.Calls.{MayPlanGrowth, IsGrowthPlanned, IsChunkPlanned, HasNoRun, IsRefused};

use crate::error::GrowError;
use heap_palloc::{Heap, plan_allocate};
use pm_model::{
    Action, MAX_CHUNKS, Memory, PAGE_WORDS, Page, Place, Plan, chunk_pages, chunk_pointer,
    named_place,
};
use std::alloc::Global;

// No more actions than an allocation has beside two for each page that was given back.
const ALLOCATION_ACTIONS: u32 = 18;

// The fence behind the punches, and a store, a flush and a fence.
const PUBLISHING_ACTIONS: u32 = 4;

/// Plans the growth of the array with this header by its next chunk, whose words are 0 then.
///
/// The chunk is allocated through the lane, unless the array owns it already: a growth that was cut can leave it owned
/// and not published. The plan may be played by any session, where the words that it writes are clean. After an error
/// the heap is as it was.
pub fn plan_grow<M: Memory>(
    alloc: Global,
    mem: &M,
    heap: &mut Heap,
    lane: u8,
    header: Place,
) -> Result<Plan, GrowError>
    requires { MayPlanGrowth (M.device mem.now).cached heap.old lane header.0 }

    ensures planned { IfOk result (λ plan.
        IsGrowthPlanned (M.device mem.now).cached heap.old heap.new lane header.0 plan.left) }

    ensures array_full { chunk_count (M.device mem.now).cached header.0 ≡ 12 → result ≡ Err ArrayFull }
    ensures refused { IfErr result (λ error. IsRefused (M.device mem.now).cached header.0 error) }
    ensures room { IfOk result (λ _. HasNoNext (M.device mem.now).cached header.0 →
        next_pages (M.device mem.now).cached header.0 ≤ longest_free_run (M.device mem.now).cached) }
    ensures unchanged { OnErr result (heap.new ≡ heap.old) }
{
    let count = mem.load(header) as u32;
    if count == MAX_CHUNKS {
        return Err(GrowError::ArrayFull);
    }
    let pages = chunk_pages(count);
    let room = 3 * pages + ALLOCATION_ACTIONS + PUBLISHING_ACTIONS;
    let mut plan = Plan::with_room(alloc, room)?;
    let first = push_chunk(alloc, mem, heap, lane, header, count, &mut plan)?;
    push_publishing(&mut plan, header, count, first);
    Ok(plan)
}

// Adds the allocation of the next chunk, unless the array owns it, and gives its first page.
fn push_chunk<M: Memory>(
    alloc: Global,
    mem: &M,
    heap: &mut Heap,
    lane: u8,
    header: Place,
    count: u32,
    plan: &mut Plan,
) -> Result<u16, GrowError>
    requires may { MayPlanGrowth (M.device mem.now).cached heap.old lane header.0 }
    requires count { count ≡ chunk_count (M.device mem.now).cached header.0 }
    requires not_full { count < 12 }
    requires room { 2 * chunk_pages count + 18 ≤ plan.old.spare }
    ensures planned { IfOk result (λ first.
        IsChunkPlanned (M.device mem.now).cached heap.old heap.new lane header.0 first plan.old.left plan.new.left) }
    ensures spare { IfOk result (λ _. plan.old.spare ≤ plan.new.spare + (2 * chunk_pages count + 18)) }
    ensures full { IfErr result (λ error.
        (error ≡ OutOfMemory) ⊎ HasNoRun (M.device mem.now).cached header.0 (chunk_pages count) error) }
    ensures fits { IfOk result (λ _. HasNoNext (M.device mem.now).cached header.0 →
        chunk_pages count ≤ longest_free_run (M.device mem.now).cached) }
    ensures unchanged { OnErr result (heap.new ≡ heap.old) }
{
    let owner = chunk_pointer(header, count);
    if mem.load(owner) != 0 {
        let chunk = named_place(mem, owner);
        return Ok((chunk.0 / PAGE_WORDS) as u16);
    }
    let words = PAGE_WORDS * chunk_pages(count);
    let (allocation, chunk) = plan_allocate(alloc, mem, heap, lane, words, owner)?;
    plan.append(allocation);
    Ok((chunk.first.0 / PAGE_WORDS) as u16)
}

// Adds the parts that make the words of a chunk 0 and publish it.
fn push_publishing(plan: &mut Plan, header: Place, count: u32, first: u16)
    requires count { count < 12 }
    requires pages { first + chunk_pages count ≤ 8192 }
    requires room { chunk_pages count + 4 ≤ plan.old.spare }
    ensures { plan.new.left ≡ plan.old.left ++ plan_of (publishing_parts header.0 count first (chunk_pages count)) }
{
    let pages = chunk_pages(count);
    push_punches(plan, first, pages);
    // The fence comes before the count: else the chunk would show its old words.
    plan.end_part(pages);
    // From here on the chunk is published.
    plan.push(Action::Store {
        place: header,
        value: u64::from(count + 1),
    });
    plan.end_part(1);
}

// Adds a punch of each of so many pages from one on.
fn push_punches(plan: &mut Plan, first: u16, pages: u32)
    requires pages { first + pages ≤ 8192 }
    requires room { pages ≤ plan.old.spare }
    ensures left { plan.new.left ≡ plan.old.left ++ punches first pages }
    ensures spare { plan.new.spare + pages ≡ plan.old.spare }
{
    for page in 0..pages {
        plan.push(Action::Punch {
            page: Page(first + page as u16),
        });
    }
}
