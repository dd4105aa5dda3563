// Planning a freeing.
ghost use Rattle.std.specs.Prelude.{◌≡◌, ◌≢◌, ◌<◌, ℕ, false, true, Contains, IfOk, OnErr, slice_index};
ghost use Rattle.heap_big.specs.Runs.{IsFree, IsWellFormed, Adds};
ghost use Rattle.heap_palloc.specs.Shown.{GainsOne};
ghost use Rattle.heap_palloc.specs.Index.{rooms_of};
ghost use Rattle.image_layout.specs.Places.{place_in};
ghost use Rattle.image_layout.specs.Blocks.{Block};
ghost use Rattle.heap_palloc.specs.Lane.{is_big_place};
ghost use Rattle.heap_palloc.specs.Calls.{MayCall, OwnsBlock, IsFreed};

use crate::heap::Heap;
use crate::parts::{ALLOCATION_ACTIONS, STORE_ACTIONS, push_freeing};
use heap_big::Run;
use heap_small::{Class, class_words, first_free, without};
use pm_model::{
    BIG_HEAD, FIRST_SLOT, Memory, NoMemory, PAGE_WORDS, Page, Place, Plan, SMALL_PAGE, descriptor,
    named_place,
};
use std::alloc::Global;

/// Plans the freeing of the live block whose pointer the word at `dest` holds. Where that was the last block of a small
/// page, the page is free again.
///
/// The plan may be played through this lane by any session, where the words that it writes are clean. After an error
/// the heap is as it was.
pub fn plan_free<M: Memory>(
    alloc: Global,
    mem: &M,
    heap: &mut Heap,
    lane: u8,
    dest: Place,
) -> Result<Plan, NoMemory>
    requires may { MayCall (M.device mem.now).cached heap.old lane dest.0 }
    requires owned { (block : Block) × OwnsBlock (M.device mem.now).cached dest.0 block }
    ensures freed { IfOk result (λ plan. IsFreed (M.device mem.now).cached heap.new lane dest.0 plan.left) }
    ensures unchanged { OnErr result (heap.new ≡ heap.old) }
{
    let first = named_place(mem, dest);
    if first.0 % PAGE_WORDS == 0 {
        free_pages(alloc, mem, heap, lane, dest, first)
    } else {
        free_slot(alloc, mem, heap, lane, dest, first)
    }
}

// Plans the freeing of a big block.
fn free_pages<M: Memory>(
    alloc: Global,
    mem: &M,
    heap: &mut Heap,
    lane: u8,
    dest: Place,
    first: Place,
) -> Result<Plan, NoMemory>
    requires may { MayCall (M.device mem.now).cached heap.old lane dest.0 }
    requires owned { (block : Block) × OwnsBlock (M.device mem.now).cached dest.0 block }
    requires named { first.0 ≡ place_in (slice_index (M.device mem.now).cached dest.0) }
    requires big { is_big_place first.0 ≡ true }
    ensures freed { IfOk result (λ plan. IsFreed (M.device mem.now).cached heap.new lane dest.0 plan.left) }
    ensures unchanged { OnErr result (heap.new ≡ heap.old) }
{
    let page = (first.0 / PAGE_WORDS) as u16;
    let pages = mem.load(descriptor(Page(page))) - BIG_HEAD;
    let mut plan = Plan::with_room(alloc, ALLOCATION_ACTIONS)?;
    push_freeing(&mut plan, lane, dest, first, 0);
    heap.put_back(Run {
        first: page,
        pages: pages as u32,
    });
    Ok(plan)
}

// Plans the freeing of a slot.
fn free_slot<M: Memory>(
    alloc: Global,
    mem: &M,
    heap: &mut Heap,
    lane: u8,
    dest: Place,
    first: Place,
) -> Result<Plan, NoMemory>
    requires may { MayCall (M.device mem.now).cached heap.old lane dest.0 }
    requires owned { (block : Block) × OwnsBlock (M.device mem.now).cached dest.0 block }
    requires named { first.0 ≡ place_in (slice_index (M.device mem.now).cached dest.0) }
    requires small { is_big_place first.0 ≡ false }
    ensures freed { IfOk result (λ plan. IsFreed (M.device mem.now).cached heap.new lane dest.0 plan.left) }
    ensures unchanged { OnErr result (heap.new ≡ heap.old) }
{
    let page = (first.0 / PAGE_WORDS) as u16;
    let class = Class::new((mem.load(descriptor(Page(page))) - SMALL_PAGE) as u8);
    let slot = (first.0 % PAGE_WORDS - FIRST_SLOT) / class_words(class);
    let bitmap = mem.load(Place(PAGE_WORDS * u32::from(page)));
    let clear = without(bitmap, slot as u8);
    let mut plan = Plan::with_room(alloc, ALLOCATION_ACTIONS + STORE_ACTIONS)?;
    push_freeing(&mut plan, lane, dest, first, clear);
    let was_full = first_free(bitmap, class).is_none();
    if clear == 0 {
        // The descriptor comes last: from here on the page is free, and no block of it was live before.
        plan.push_store(descriptor(Page(page)), 0);
        give_back_page(heap, class, page, was_full);
    } else if was_full {
        heap.add_room(class, page);
    }
    Ok(plan)
}

// Makes a small page free, which had room where it wasn't full.
fn give_back_page(heap: &mut Heap, class: Class, page: u16, was_full: bool)
    requires within { page < heap.old.free.page_count }
    requires not_free { IsFree heap.old.free.runs page → ⊥ }
    requires room { was_full ≡ false → Contains (rooms_of heap.old class) page }
    ensures loses { was_full ≡ false → GainsOne (rooms_of heap.new class) page (rooms_of heap.old class) }
    ensures others { (other : ℕ) → other ≢ class → rooms_of heap.new other ≡ rooms_of heap.old other }
    ensures same { was_full ≡ true → rooms_of heap.new class ≡ rooms_of heap.old class }
    ensures added { Adds heap.old.free.runs (record { first = page; pages = 1 }) heap.new.free.runs }
    ensures well_formed { IsWellFormed heap.new.free }
    ensures page_count { heap.new.free.page_count ≡ heap.old.free.page_count }
{
    if !was_full {
        heap.remove_room(class, page);
    }
    heap.put_back(Run {
        first: page,
        pages: 1,
    });
}
