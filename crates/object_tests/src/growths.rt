ghost use Rattle.std.specs.Prelude.{◌<◌};
ghost use Rattle.heap_palloc.specs.Calls.{IsSettled};
ghost use Rattle.seg_array.specs.Calls.{IsHeader};

use crate::tables::{create, formatted};
use heap_palloc::Heap;
use pm_model::{Memory, Place};
use seg_array::{GrowError, plan_grow};
use std::alloc::Global;
use std::process::Abort;
use std::test::Fail;
use test_ground::play_whole;

// Grows the array with this header, which has no chunk, through lane 0, and gives how many actions the plan has.
fn grow<M: Memory>(
    rt: &impl Abort,
    alloc: Global,
    memory: &mut M,
    heap: &mut Heap,
    header: Place,
) -> Result<u32, GrowError>
    requires settled { IsSettled (M.device memory.old) heap.old }
    requires header { IsHeader (M.device memory.old).cached header.0 }
{
    assert_eq!(rt; memory.load(Place(576)), 0);
    for word in 0..13 {
        assert_eq!(rt; memory.load(Place(header.0 + word)), 0);
    }
    let mut plan = plan_grow(alloc, memory, heap, 0, header)?;
    Ok(play_whole(memory, 1, &mut plan))
}

// The count of tables and the first table's slot, the descriptor of page 5, and the first two words of a header.
fn seen<M: Memory>(memory: &M, header: Place) -> [u64; 5]
    requires { header.0 < 2176 }
{
    [
        memory.load(Place(515)),
        memory.load(Place(520)),
        memory.load(Place(5)),
        memory.load(header),
        memory.load(Place(header.0 + 1)),
    ]
}

// Creates the table `t` on a formatted image of one segment, and grows the array of it that has this header.
fn check_growth(rt: &impl Abort, alloc: Global, header: u32) -> Result<(), Fail> {
    assert!(rt; header >= 2056);
    assert!(rt; header <= 2120);
    let (mut memory, mut heap, mut catalog) = formatted(alloc, 1)?;
    let block = create(rt, alloc, &mut memory, &mut heap, &mut catalog, "t")?;
    assert_eq!(rt; block.0, 2056);
    let slot = 4_294_969_352;
    assert_eq!(rt; seen(&memory, Place(header)), [1, slot, 0, 0, 0]);
    let actions = grow(rt, alloc, &mut memory, &mut heap, Place(header))?;
    assert_eq!(rt; actions, 21);
    assert_eq!(rt;
        seen(&memory, Place(header)),
        [1, slot, 17, 1, 4_294_969_856]
    );
    Ok(())
}

// The block of a new table is the first slot of page 4, and the first chunk of each of its arrays is page 5.
#[test]
fn a_table_is_created_and_then_grown(rt: HostRuntime) -> Result<(), Fail> {
    for header in [2064, 2080, 2104, 2120] {
        check_growth(&rt, rt.alloc(), header)?;
    }
    Ok(())
}
