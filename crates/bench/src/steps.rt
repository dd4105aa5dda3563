// One allocation, one freeing, and the actions of one, on a device that is in use.
ghost use Rattle.std.specs.Prelude.{◌≡◌, ◌≢◌, ℕ, ◌*◌, ◌<◌, ◌≤◌, IfOk, IsTrue, List, length, slice_index};
ghost use Rattle.pm_model.specs.Device.{IsClean};
ghost use Rattle.pm_model.specs.Plans.{Part, IsPlan, finished, plan_of};
ghost use Rattle.bench.specs.Uses.{IsOwner, IsInUse, IsAtRest};

use heap_palloc::{AllocError, Heap, NoMemory, plan_allocate, plan_free};
use pm_model::{Action, LINE_WORDS, Memory, Place, Plan, lane_block, lane_dest, lane_op, play};
use std::alloc::Global;
use test_ground::play_whole;

const LANE: u8 = 0;

const SESSION: u8 = 1;

/// Where the owner has no block, allocates one of so many words into it, and else frees its block. It gives how many
/// actions were played, 0 where the heap was full.
pub(crate) fn take_turn<M: Memory>(
    alloc: Global,
    memory: &mut M,
    heap: &mut Heap,
    owner: Place,
    words: u32,
) -> Result<u32, AllocError>
    requires in_use { IsInUse (M.device memory.old) heap.old }
    requires owner { IsOwner owner.0 }
    requires some { 1 ≤ words }
    requires most { words ≤ 32256 }
    ensures { IfOk result (λ _. IsInUse (M.device memory.new) heap.new) }
{
    if memory.load(owner) == 0 {
        allocate(alloc, memory, heap, owner, words)
    } else {
        Ok(free(alloc, memory, heap, owner)?)
    }
}

fn allocate<M: Memory>(
    alloc: Global,
    memory: &mut M,
    heap: &mut Heap,
    owner: Place,
    words: u32,
) -> Result<u32, AllocError>
    requires in_use { IsInUse (M.device memory.old) heap.old }
    requires owner { IsOwner owner.0 }
    requires none { slice_index (M.device memory.old).cached owner.0 ≡ 0 }
    requires some { 1 ≤ words }
    requires most { words ≤ 32256 }
    ensures { IfOk result (λ _. IsInUse (M.device memory.new) heap.new) }
{
    match plan_allocate(alloc, memory, heap, LANE, words, owner) {
        Ok((mut plan, _block)) => Ok(play_whole(memory, SESSION, &mut plan)),
        Err(AllocError::Full { .. }) => Ok(0),
        Err(AllocError::NoMemory) => Err(AllocError::NoMemory),
    }
}

fn free<M: Memory>(
    alloc: Global,
    memory: &mut M,
    heap: &mut Heap,
    owner: Place,
) -> Result<u32, NoMemory>
    requires in_use { IsInUse (M.device memory.old) heap.old }
    requires owner { IsOwner owner.0 }
    requires some { slice_index (M.device memory.old).cached owner.0 ≢ 0 }
    ensures { IfOk result (λ _. IsInUse (M.device memory.new) heap.new) }
{
    let mut plan = plan_free(alloc, memory, heap, LANE, owner)?;
    Ok(play_whole(memory, SESSION, &mut plan))
}

// The first word of the first page that isn't reserved, as the bitmap of a small page.
const MARK: Place = Place(2048);

const OWNER: Place = Place(704);

/// Plays the actions of an allocation on words of 0, and gives how many there are: the lane's part, and four parts of
/// one store.
pub(crate) fn play_allocation<M: Memory>(memory: &mut M) -> u32
    requires { IsAtRest (M.device memory.old) }
    ensures { IsAtRest (M.device memory.new) }
{
    play_lane(memory);
    play_store(memory, lane_op(LANE), 1);
    play_store(memory, MARK, 1);
    play_store(memory, OWNER, 1);
    play_store(memory, lane_op(LANE), 0);
    16
}

// Plays a part of two stores into the lane.
fn play_lane<M: Memory>(memory: &mut M)
    requires { IsAtRest (M.device memory.old) }
    ensures { IsAtRest (M.device memory.new) }
{
    let dest = lane_dest(LANE);
    let block = lane_block(LANE);
    memory.act(
        SESSION,
        Action::Store {
            place: dest,
            value: 1,
        },
    );
    memory.act(
        SESSION,
        Action::Store {
            place: block,
            value: 1,
        },
    );
    memory.act(
        SESSION,
        Action::Flush {
            line: dest.0 / LINE_WORDS,
        },
    );
    memory.act(SESSION, Action::Fence);
}

// Plays a part of one store.
fn play_store<M: Memory>(memory: &mut M, place: Place, value: u64)
    requires at_rest { IsAtRest (M.device memory.old) }
    requires within { place.0 < 32768 }
    ensures { IsAtRest (M.device memory.new) }
{
    memory.act(SESSION, Action::Store { place, value });
    memory.act(
        SESSION,
        Action::Flush {
            line: place.0 / LINE_WORDS,
        },
    );
    memory.act(SESSION, Action::Fence);
}
