// Planning an allocation.
ghost use Rattle.std.specs.Prelude.{◌≡◌, ◌⊎◌, ◌+◌, ◌*◌, ◌<◌, ◌≤◌, ◌++◌, [], ◌∷◌, ℕ, List, IfOk, IfErr, OnErr, length, slice_index};
ghost use Rattle.image_layout.specs.Blocks.{bitmap_of, class_for, longest_free_run, pages_for};
ghost use Rattle.pm_model.specs.Plans.{plan_of, unless_empty};
ghost use Rattle.heap_palloc.specs.declared.error.AllocError.TheVariants.{Full, NoMemory as OutOfMemory};
ghost use Rattle.heap_palloc.specs.Index.{rooms_of, pages_with_room};
ghost use Rattle.heap_palloc.specs.Choice.{needed_pages};
ghost use Rattle.heap_palloc.specs.Calls.{MayCall, IsAllocated, IsFull, IsNewSlotPlanned, IsRunPlanned, IsSlotPlanned};

use crate::block::{Block, slot_block};
use crate::error::AllocError;
use crate::heap::Heap;
use crate::parts::{
    ALLOCATION_ACTIONS, NEW_PAGE_ACTIONS, push_allocation, push_forgetting, push_new_page,
};
use heap_small::{Class, class_for, first_free, slots, with};
use pm_model::{BIG_HEAD, Memory, NoMemory, PAGE_WORDS, Page, Place, Plan};
use std::alloc::Global;

/// Plans the allocation of a block of so many words, whose pointer goes into the word at `dest`.
///
/// Up to 256 words the block is a slot of the least class that holds them: the least free one of the lowest small page
/// of that class that has one, and where there is none the first of a page that is taken and made small first. Above
/// that it is the least number of pages that holds them. Pages are taken from the front of the shortest run that fits.
///
/// The plan may be played through this lane by any session, where the words that it writes are clean. After an error
/// the heap is as it was.
pub fn plan_allocate<M: Memory>(
    alloc: Global,
    mem: &M,
    heap: &mut Heap,
    lane: u8,
    words: u32,
    dest: Place,
) -> Result<(Plan, Block), AllocError>
    requires may { MayCall (M.device mem.now).cached heap.old lane dest.0 }
    requires empty { slice_index (M.device mem.now).cached dest.0 ≡ 0 }
    requires some { 1 ≤ words }
    requires most { words ≤ 32256 }

    ensures allocated { IfOk result (λ made.
        IsAllocated (M.device mem.now).cached heap.old heap.new lane dest.0 words made.0.left
        made.1.first.0 made.1.words) }

    ensures full { IfErr result (λ error. (error ≡ OutOfMemory)
        ⊎ (IsFull (M.device mem.now).cached words
        × (error ≡ Full (needed_pages words) (longest_free_run (M.device mem.now).cached)))) }
    ensures room { IfOk result (λ _. IsFull (M.device mem.now).cached words → ⊥) }
    ensures unchanged { OnErr result (heap.new ≡ heap.old) }
{
    match class_for(words) {
        Some(class) => match heap.lowest_room(class) {
            Some(page) => Ok(take_slot(alloc, mem, heap, lane, dest, class, page)?),
            None => take_new_page(alloc, mem, heap, lane, dest, class),
        },
        None => take_pages(alloc, mem, heap, lane, dest, words.div_ceil(PAGE_WORDS)),
    }
}

// Plans the allocation of the least free slot of a small page that has one.
fn take_slot<M: Memory>(
    alloc: Global,
    mem: &M,
    heap: &mut Heap,
    lane: u8,
    dest: Place,
    class: Class,
    page: u16,
) -> Result<(Plan, Block), NoMemory>
    requires may { MayCall (M.device mem.now).cached heap.old lane dest.0 }
    requires empty { slice_index (M.device mem.now).cached dest.0 ≡ 0 }
    requires class { class < 6 }
    requires room { (rest : List ℕ) × (rooms_of heap.old class ≡ page ∷ rest) }
    ensures planned { IfOk result (λ made. IsSlotPlanned (M.device mem.now).cached heap.new lane dest.0 page class
        made.0.left made.1.first.0 made.1.words) }
    ensures unchanged { OnErr result (heap.new ≡ heap.old) }
{
    let bitmap = mem.load(Place(PAGE_WORDS * u32::from(page)));
    let slot = first_free(bitmap, class).unwrap();
    let block = slot_block(page, class, slot);
    let marked = with(bitmap, slot);
    let mut plan = Plan::with_room(alloc, ALLOCATION_ACTIONS)?;
    push_allocation(&mut plan, lane, dest, block.first, marked);
    if first_free(marked, class).is_none() {
        heap.remove_room(class, page);
    }
    Ok((plan, block))
}

// Plans the allocation of the first slot of a free page, which is made a small page first.
fn take_new_page<M: Memory>(
    alloc: Global,
    mem: &M,
    heap: &mut Heap,
    lane: u8,
    dest: Place,
    class: Class,
) -> Result<(Plan, Block), AllocError>
    requires may { MayCall (M.device mem.now).cached heap.old lane dest.0 }
    requires empty { slice_index (M.device mem.now).cached dest.0 ≡ 0 }
    requires class { class < 6 }
    requires room { rooms_of heap.old class ≡ [] }
    ensures planned { IfOk result (λ made.
        IsNewSlotPlanned (M.device mem.now).cached heap.old.free.runs heap.new lane dest.0 class
        made.0.left made.1.first.0 made.1.words) }
    ensures full { IfErr result (λ error. (error ≡ OutOfMemory)
        ⊎ ((longest_free_run (M.device mem.now).cached < 1)
        × (error ≡ Full 1 (longest_free_run (M.device mem.now).cached)))) }
    ensures unchanged { OnErr result (heap.new ≡ heap.old) }
{
    let mut plan = Plan::with_room(alloc, NEW_PAGE_ACTIONS + ALLOCATION_ACTIONS)?;
    let page = heap.take_run(1)?.first;
    let block = slot_block(page, class, 0);
    push_new_page(&mut plan, Page(page), class.number());
    push_allocation(&mut plan, lane, dest, block.first, with(0, 0));
    if slots(class) > 1 {
        heap.add_room(class, page);
    }
    Ok((plan, block))
}

// Plans the allocation of so many pages.
fn take_pages<M: Memory>(
    alloc: Global,
    mem: &M,
    heap: &mut Heap,
    lane: u8,
    dest: Place,
    pages: u32,
) -> Result<(Plan, Block), AllocError>
    requires may { MayCall (M.device mem.now).cached heap.old lane dest.0 }
    requires empty { slice_index (M.device mem.now).cached dest.0 ≡ 0 }
    requires some { 0 < pages }
    requires most { pages ≤ 63 }
    ensures planned { IfOk result (λ made.
        IsRunPlanned (M.device mem.now).cached heap.old.free.runs heap.new lane dest.0 pages
        made.0.left made.1.first.0 made.1.words) }
    ensures full { IfErr result (λ error. (error ≡ OutOfMemory)
        ⊎ ((longest_free_run (M.device mem.now).cached < pages)
        × (error ≡ Full pages (longest_free_run (M.device mem.now).cached)))) }
    ensures unchanged { OnErr result (heap.new ≡ heap.old) }
{
    let mut plan = Plan::with_room(alloc, 2 * pages + 1 + ALLOCATION_ACTIONS)?;
    let run = heap.take_run(pages)?;
    let first = Place(PAGE_WORDS * u32::from(run.first));
    push_forgetting(&mut plan, mem, run);
    push_allocation(&mut plan, lane, dest, first, BIG_HEAD + u64::from(pages));
    Ok((
        plan,
        Block {
            first,
            words: PAGE_WORDS * pages,
        },
    ))
}
