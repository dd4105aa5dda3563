ghost use Rattle.std.specs.Prelude.{◌<◌, ◌≤◌, IfOk};
ghost use Rattle.image_layout.specs.Blocks.{Block as LiveBlock};
ghost use Rattle.heap_palloc.specs.Calls.{IsSettled, OwnsBlock};

use heap_palloc::{AllocError, Block, Heap, NoMemory, plan_allocate, plan_free};
use pm_model::{Memory, Place};
use std::alloc::Global;
use std::process::Abort;
use test_ground::{formatted_heap, play_whole};

// Allocates through lane 0, and gives the block and how many actions its plan has.
fn allocate<M: Memory>(
    rt: &impl Abort,
    alloc: Global,
    memory: &mut M,
    heap: &mut Heap,
    words: u32,
    dest: Place,
) -> Result<(Block, u32), AllocError>
    requires settled { IsSettled (M.device memory.old) heap.old }
    requires some { 1 ≤ words }
    requires most { words ≤ 32256 }
    requires first { 512 ≤ dest.0 }
    requires last { dest.0 < 576 }
    ensures settled { IsSettled (M.device memory.new) heap.new }
    ensures owned { IfOk result
        (λ made. words ≤ 256 →
        OwnsBlock (M.device memory.new).cached dest.0 (record { first = made.0.first.0; words = made.0.words })) }
{
    assert_eq!(rt; memory.load(Place(576)), 0);
    assert_eq!(rt; memory.load(dest), 0);
    let (mut plan, block) = plan_allocate(alloc, memory, heap, 0, words, dest)?;
    let actions = play_whole(memory, 1, &mut plan);
    Ok((block, actions))
}

// Frees the block whose pointer the word at `dest` holds, and gives how many actions its plan has.
fn free<M: Memory>(
    rt: &impl Abort,
    alloc: Global,
    memory: &mut M,
    heap: &mut Heap,
    dest: Place,
) -> Result<u32, NoMemory>
    requires settled { IsSettled (M.device memory.old) heap.old }
    requires first { 512 ≤ dest.0 }
    requires last { dest.0 < 576 }
    requires owned { (block : LiveBlock) × OwnsBlock (M.device memory.old).cached dest.0 block }
    ensures settled { IsSettled (M.device memory.new) heap.new }
{
    assert_eq!(rt; memory.load(Place(576)), 0);
    let mut plan = plan_free(alloc, memory, heap, 0, dest)?;
    Ok(play_whole(memory, 1, &mut plan))
}

// A block: its place, its words, how many actions its allocation has, and the descriptor of page 4 after it.
type Seen = (u32, u32, u32, u64);

// The first block of a formatted image of one segment, whose pointer goes into place 520.
fn first_block(rt: &impl Abort, alloc: Global, words: u32) -> Result<Seen, AllocError>
    requires some { 1 ≤ words }
    requires most { words ≤ 32256 }
{
    let (mut memory, mut heap) = formatted_heap(alloc, 1)?;
    let (block, actions) = allocate(rt, alloc, &mut memory, &mut heap, words, Place(520))?;
    let descriptor = memory.load(Place(4));
    Ok((block.first.0, block.words, actions, descriptor))
}

// How many actions an allocation has once all pages are one block.
fn block_behind_all(rt: &impl Abort, alloc: Global) -> Result<u32, AllocError> {
    let (mut memory, mut heap) = formatted_heap(alloc, 1)?;
    allocate(rt, alloc, &mut memory, &mut heap, 30_720, Place(520))?;
    let (_, actions) = allocate(rt, alloc, &mut memory, &mut heap, 1, Place(521))?;
    Ok(actions)
}

// How many actions the freeing of the first block has, and the descriptor of page 4 and the owner's word after it.
fn freed_block(rt: &impl Abort, alloc: Global) -> Result<(u32, u64, u64), AllocError> {
    let (mut memory, mut heap) = formatted_heap(alloc, 1)?;
    let (_block, _) = allocate(rt, alloc, &mut memory, &mut heap, 80, Place(520))?;
    let actions = free(rt, alloc, &mut memory, &mut heap, Place(520))?;
    Ok((actions, memory.load(Place(4)), memory.load(Place(520))))
}

fn full(need: u32, largest: u32) -> AllocError {
    AllocError::Full { need, largest }
}

#[test]
fn blocks_are_allocated_and_freed(rt: HostRuntime) {
    for (words, seen) in [
        (80, Ok((2056, 128, 22, 6))),
        (513, Ok((2048, 1024, 16, 18))),
        (30_720, Ok((2048, 30_720, 16, 76))),
        (32_256, Err(full(63, 60))),
    ] {
        assert_eq!(rt;
            first_block(&rt, rt.alloc(), words),
            seen,
            "of {words} words"
        );
    }
    assert_eq!(rt; block_behind_all(&rt, rt.alloc()), Err(full(1, 0)));
    assert_eq!(rt; freed_block(&rt, rt.alloc()), Ok((19, 0, 0)));
}
