//! Each power cut of an allocation and of a freeing: once opening has mended the lane, the owner's word has the pointer
//! of a live block, or is null and the block isn't live.
ghost use Rattle.std.specs.Prelude.{◌≡◌, ◌≤◌, IfOk, length};
ghost use Rattle.image_layout.specs.Blocks.{Block as LiveBlock};
ghost use Rattle.heap_palloc.specs.Calls.{IsSettled, OwnsBlock};

use crate::opening::{KEEPS, Step, mend, open, play};
use heap_palloc::{AllocError, Heap, plan_allocate, plan_free};
use pm_model::{Keep, Memory, NoMemory, Place, Plain, Plan};
use std::alloc::Global;
use std::process::Abort;
use std::test::Fail;
use test_ground::{formatted_heap, play_whole};

// The owner's word: the table slot at the count, where no table is published.
const OWNER: Place = Place(520);

// The words of the block. It is the first slot of page 4, which becomes a small page for it.
const WORDS: u32 = 80;

const POINTER: u64 = 4_294_969_352;

#[derive(Clone, Copy)]
enum Change {
    Allocation,
    Freeing,
}

// From how many played actions on a word is stored, and from how many on it is durable.
#[derive(Clone, Copy)]
struct Turn {
    stored: u32,
    durable: u32,
}

impl Turn {
    // Whether an image has the word that is stored. None where it may have either.
    fn is_made(self, played: u32, keep: Keep) -> Option<bool> {
        match keep {
            Keep::Nothing => Some(played >= self.durable),
            Keep::All => Some(played >= self.stored),
            Keep::Mix(_) if played >= self.durable => Some(true),
            Keep::Mix(_) if played < self.stored => Some(false),
            Keep::Mix(_) => None,
        }
    }
}

// A change by its actions: how many there are, the store from which on it is made once the lane is mended, and that of
// the page's descriptor; and the owner's word and the number of free pages before it and after it.
struct Course {
    change: Change,
    actions: u32,
    owner: Turn,
    page: Turn,
    owners: [u64; 2],
    free_pages: [u64; 2],
}

// The page's bitmap and its descriptor, the words of the lane, its op, the block's bit, the owner's word, and the op
// again: 3, 3, 4, 3, 3, 3 and 3 actions. Where the owner has the pointer, the mended lane keeps the block.
const ALLOCATION: Course = Course {
    change: Change::Allocation,
    actions: 22,
    owner: Turn {
        stored: 17,
        durable: 19,
    },
    page: Turn {
        stored: 4,
        durable: 6,
    },
    owners: [0, POINTER],
    free_pages: [60, 59],
};

// The words of the lane, its op, the owner's word, the block's bit, the op again, and the descriptor of the page: 4, 3,
// 3, 3, 3 and 3 actions. From the op on the mended lane frees the block.
const FREEING: Course = Course {
    change: Change::Freeing,
    actions: 19,
    owner: Turn {
        stored: 5,
        durable: 7,
    },
    page: Turn {
        stored: 17,
        durable: 19,
    },
    owners: [POINTER, 0],
    free_pages: [59, 60],
};

// The plan by which the block is allocated through lane 0, on a formatted image.
fn allocation<M: Memory>(
    rt: &impl Abort,
    alloc: Global,
    memory: &M,
    heap: &mut Heap,
) -> Result<Plan, AllocError>
    requires { IsSettled (M.device memory.now) heap.old }
{
    assert_eq!(rt; memory.load(Place(576)), 0);
    assert_eq!(rt; memory.load(OWNER), 0);
    let (plan, _) = plan_allocate(alloc, memory, heap, 0, WORDS, OWNER)?;
    Ok(plan)
}

// Allocates it.
fn allocate<M: Memory>(
    rt: &impl Abort,
    alloc: Global,
    memory: &mut M,
    heap: &mut Heap,
) -> Result<(), AllocError>
    requires { IsSettled (M.device memory.old) heap.old }
    ensures settled { IfOk result (λ _. IsSettled (M.device memory.new) heap.new) }
    ensures owned { IfOk result (λ _. (block : LiveBlock) × OwnsBlock (M.device memory.new).cached 520 block) }
{
    assert_eq!(rt; memory.load(Place(576)), 0);
    assert_eq!(rt; memory.load(OWNER), 0);
    let (mut plan, _block) = plan_allocate(alloc, memory, heap, 0, WORDS, OWNER)?;
    play_whole(memory, 1, &mut plan);
    Ok(())
}

// The plan by which it is freed through lane 0, where it is allocated.
fn freeing<M: Memory>(
    rt: &impl Abort,
    alloc: Global,
    memory: &mut M,
    heap: &mut Heap,
) -> Result<Plan, AllocError>
    requires { IsSettled (M.device memory.old) heap.old }
{
    allocate(rt, alloc, memory, heap)?;
    assert_eq!(rt; memory.load(Place(576)), 0);
    let plan = plan_free(alloc, memory, heap, 0, OWNER)?;
    Ok(plan)
}

// The image that a power cut leaves of a change after so many of its actions.
fn cut_image(
    rt: &impl Abort,
    alloc: Global,
    course: &Course,
    played: u32,
    keep: Keep,
) -> Result<Vec<u64>, AllocError> {
    let (mut memory, mut heap) = formatted_heap(alloc, 1)?;
    let mut plan = match course.change {
        Change::Allocation => allocation(rt, alloc, &memory, &mut heap)?,
        Change::Freeing => freeing(rt, alloc, &mut memory, &mut heap)?,
    };
    assert_eq!(rt; plan.len(), course.actions);
    play(rt, &mut memory, 1, &mut plan, played);
    let image = memory.choose(keep)?;
    Ok(image)
}

// How many pages of one segment are free.
fn free_pages(words: &[u64]) -> u64 {
    words.iter().take(64).filter(|word| **word <= 1).count() as u64
}

// Mends the lanes of an image, and gives the owner's word and how many pages are free. The block is live exactly where
// it has an owner, and the image opens to one that is sound and has no block.
fn mended<M: Memory>(
    rt: &impl Abort,
    alloc: Global,
    memory: &mut M,
) -> Result<(u64, u64), NoMemory> {
    mend(rt, alloc, memory, Step::Lanes)?;
    let owner = memory.load(OWNER);
    let free = free_pages(&memory.choose(Keep::All)?);
    let live = memory.load(Place(4)) == 6 && memory.load(Place(2048)) == 1;
    assert_eq!(rt; live, owner == POINTER);
    open(rt, alloc, memory)?;
    assert_eq!(rt; memory.load(OWNER), 0);
    Ok((owner, free))
}

// Whether a number is the one after a change that is made, or the one before it, or any of them where either may be.
fn is_one(number: u64, numbers: [u64; 2], made: Option<bool>) -> bool {
    match made {
        Some(true) => number == numbers[1],
        Some(false) => number == numbers[0],
        None => numbers.contains(&number),
    }
}

// Cuts a change after each of its actions.
fn cut_everywhere(rt: &impl Abort, alloc: Global, course: &Course) -> Result<(), AllocError> {
    for played in 0..=course.actions {
        for keep in KEEPS {
            let image = cut_image(rt, alloc, course, played, keep)?;
            assert!(rt; image.len() == 32768);
            let mut memory = Plain::new(alloc, image)?;
            let (owner, free) = mended(rt, alloc, &mut memory)?;
            let owned = course.owner.is_made(played, keep);
            let paged = course.page.is_made(played, keep);
            assert!(rt; is_one(owner, course.owners, owned), "{played}");
            assert!(rt; is_one(free, course.free_pages, paged), "{played}");
        }
    }
    Ok(())
}

#[test]
fn a_cut_allocation_is_made_or_not(rt: HostRuntime) -> Result<(), Fail> {
    cut_everywhere(&rt, rt.alloc(), &ALLOCATION)?;
    Ok(())
}

#[test]
fn a_cut_freeing_is_made_or_not(rt: HostRuntime) -> Result<(), Fail> {
    cut_everywhere(&rt, rt.alloc(), &FREEING)?;
    Ok(())
}
