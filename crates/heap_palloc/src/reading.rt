// The index from the words.
ghost use Rattle.std.specs.Prelude.{◌≡◌, ◌+◌, ◌*◌, ◌<◌, ◌≤◌, ◌++◌, [], ◌∷◌, ℕ, if◌then◌else◌, filter, map, length, vec_len, vec_capacity, IfOk, IsTrue};
ghost use Rattle.std.specs.List.{range_with_len};
ghost use Rattle.image_layout.specs.Places.{below, page_count};
ghost use Rattle.image_layout.specs.Blocks.{descriptor_of, says_small, inside_after, is_small_page};
ghost use Rattle.heap_big.specs.Pages.{IsRising};
ghost use Rattle.heap_palloc.specs.Index.{IsIndexOf, has_room, rooms_of, pages_with_room};

use crate::heap::Heap;
use heap_big::Runs;
use heap_small::{Class, first_free};
use pm_model::{
    BIG_HEAD, LAST_SMALL_PAGE, Memory, NoMemory, PAGE_WORDS, Page, Place, SEGMENT_PAGES,
    SEGMENT_WORDS, SMALL_PAGE, descriptor,
};
use std::alloc::Global;

// What the descriptors say: all of them, and the small pages in ascending place.
#[derive(Drop)]
struct Scan {
    descriptors: Vec<u64>,
    small: Vec<u16>,
}

/// The index of the heap of these words. It takes the room for every page, so no later call makes it grow.
pub fn reopen<M: Memory>(alloc: Global, mem: &M) -> Result<Heap, NoMemory>
    ensures { IfOk result (IsIndexOf (M.device mem.now).cached) }
{
    let scan = scan_pages(alloc, mem)?;
    let runs = Runs::from_descriptors(alloc, &scan.descriptors)?;
    let mut heap = Heap::with_runs(runs);
    add_rooms(mem, &mut heap, scan.small);
    Ok(heap)
}

// Reads each descriptor once.
fn scan_pages<M: Memory>(alloc: Global, mem: &M) -> Result<Scan, NoMemory>
    ensures descriptors { IfOk result (λ scan.
        scan.descriptors.items ≡ map (descriptor_of (M.device mem.now).cached)
        (below (page_count (M.device mem.now).cached))) }
    ensures small { IfOk result (λ scan.
        scan.small.items ≡ filter (is_small_page (M.device mem.now).cached)
        (below (page_count (M.device mem.now).cached))) }
{
    let pages = (mem.len() / PAGE_WORDS) as usize;
    let mut scan = Scan {
        descriptors: Vec::with_capacity(alloc, pages)?,
        small: Vec::with_capacity(alloc, pages)?,
    };
    for segment in 0..mem.len() / SEGMENT_WORDS {
        scan_segment(mem, segment, &mut scan);
    }
    Ok(scan)
}

// Reads the descriptors of a segment. Those of the pages behind a big block's head aren't looked at.
fn scan_segment<M: Memory>(mem: &M, segment: u32, scan: &mut Scan)
    requires segment { 32768 * segment + 32768 ≤ length (M.device mem.now).cached }
    requires descriptors { vec_len scan.old.descriptors + 64 ≤ vec_capacity scan.old.descriptors }
    requires small { vec_len scan.old.small + 64 ≤ vec_capacity scan.old.small }
    ensures descriptors { scan.new.descriptors.items ≡ scan.old.descriptors.items
        ++ map (descriptor_of (M.device mem.now).cached) (range_with_len (64 * segment) 64) }
    ensures small { scan.new.small.items ≡ scan.old.small.items
        ++ filter (is_small_page (M.device mem.now).cached) (range_with_len (64 * segment) 64) }
    ensures length { vec_len scan.new.descriptors ≡ vec_len scan.old.descriptors + 64 }
    ensures more { vec_len scan.new.small ≤ vec_len scan.old.small + 64 }
    ensures capacity { vec_capacity scan.new.descriptors ≡ vec_capacity scan.old.descriptors }
    ensures small_capacity { vec_capacity scan.new.small ≡ vec_capacity scan.old.small }
{
    let mut inside = 0;
    for page in 0..SEGMENT_PAGES {
        let number = (SEGMENT_PAGES * segment + page) as u16;
        let value = mem.load(descriptor(Page(number)));
        scan.descriptors.push_reserved(value);
        if inside == 0 && is_small(value) {
            scan.small.push_reserved(number);
        }
        inside = left_behind(inside, value);
    }
}

// Whether a descriptor is that of a small page.
fn is_small(value: u64) -> bool
    ensures { result ≡ says_small value }
{
    SMALL_PAGE <= value && value <= LAST_SMALL_PAGE
}

// How many pages of a big block are left behind a page.
fn left_behind(inside: u64, value: u64) -> u64
    ensures { result ≡ inside_after inside value }
{
    if inside > 0 {
        inside - 1
    } else {
        value.saturating_sub(BIG_HEAD + 1)
    }
}

// Adds to the index those of the small pages that have a free slot, the highest first.
fn add_rooms<M: Memory>(mem: &M, heap: &mut Heap, mut small: Vec<u16>)
    requires small { small.items ≡ filter (is_small_page (M.device mem.now).cached)
        (below (page_count (M.device mem.now).cached)) }
    requires none { (class : ℕ) → rooms_of heap.old class ≡ [] }
    ensures rooms { (class : ℕ) → class < 6 →
        rooms_of heap.new class ≡ pages_with_room (M.device mem.now).cached class }
    ensures free { heap.new.free ≡ heap.old.free }
{
    while let Some(page) = small.pop() {
        add_room(mem, heap, page);
    }
}

// Adds to the index a small page that is lower than all that it has, where it has a free slot.
fn add_room<M: Memory>(mem: &M, heap: &mut Heap, page: u16)
    requires in_image { page < page_count (M.device mem.now).cached }
    requires small { IsTrue (is_small_page (M.device mem.now).cached page) }
    requires rising { (class : ℕ) → class < 6 → IsRising (page + 1) (rooms_of heap.old class) 8192 }
    ensures rooms { (class : ℕ) → class < 6 →
        rooms_of heap.new class ≡ (if has_room (M.device mem.now).cached class page then page ∷ rooms_of heap.old class
        else rooms_of heap.old class) }
    ensures free { heap.new.free ≡ heap.old.free }
{
    let value = mem.load(descriptor(Page(page)));
    let class = Class::new((value - SMALL_PAGE) as u8);
    let bitmap = mem.load(Place(PAGE_WORDS * u32::from(page)));
    if first_free(bitmap, class).is_some() {
        heap.add_room(class, page);
    }
}
