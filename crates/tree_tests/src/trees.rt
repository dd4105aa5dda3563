ghost use Rattle.std.specs.Prelude.{IfOk};
ghost use Rattle.pm_model.specs.Plain.{device_of};
ghost use Rattle.tree_ground.specs.Ready.{IsReady};

use fp_inner::Probe;
use fp_tree::{Pair, Tree};
use heap_palloc::Heap;
use pm_model::{Memory, Place, Plain};
use std::alloc::Global;
use std::test::Fail;
use tree_ground::{GroundError, empty_tree, find, put};

/// The key word of the integer 0.
pub(crate) const ZERO: u64 = 1 << 63;

/// The place of the record of the table's column.
pub(crate) const COLUMN: Place = Place(2096);

/// Puts the integers from 0 up to one into a tree, each with itself as its code.
pub(crate) fn put_up_to<M: Memory>(
    alloc: Global,
    memory: &mut M,
    heap: &mut Heap,
    tree: &mut Tree,
    count: u32,
) -> Result<(), GroundError>
    requires { IsReady (M.device memory.old) heap.old tree.old }
    ensures { IfOk result (λ _. IsReady (M.device memory.new) heap.new tree.new) }
{
    for number in 0..count {
        put(alloc, memory, heap, tree, ZERO + u64::from(number), number)?;
    }
    Ok(())
}

/// A tree with the integers from 0 up to one, on a formatted image of one segment.
pub(crate) fn tree_up_to(alloc: Global, count: u32) -> Result<(Plain, Heap, Tree), GroundError>
    ensures { IfOk result (λ made. IsReady (device_of made.0) made.1 made.2) }
{
    let (mut memory, mut heap, mut tree) = empty_tree(alloc, 1)?;
    put_up_to(alloc, &mut memory, &mut heap, &mut tree, count)?;
    Ok((memory, heap, tree))
}

// The first leaf keeps the slots 0 to 23, and points to the new one, at place 2312, which has the other 24 and the
// integer 48 in its first 25.
#[test]
fn the_49th_integer_splits_the_first_leaf(rt: HostRuntime) -> Result<(), Fail> {
    let (memory, _heap, tree) = tree_up_to(rt.alloc(), 49)?;
    assert_eq!(rt; memory.load(Place(2184)), 16_777_215);
    assert_eq!(rt; memory.load(Place(2185)), 4_294_969_608);
    assert_eq!(rt; memory.load(Place(2312)), 33_554_431);
    assert_eq!(rt; memory.load(Place(2313)), 0);
    assert_eq!(rt; find(&memory, &tree, ZERO + 7), Some(7));
    assert_eq!(rt; find(&memory, &tree, ZERO + 48), Some(48));
    assert_eq!(rt; find(&memory, &tree, ZERO + 49), None);
    assert_eq!(rt; find(&memory, &tree, ZERO - 1), None);
    let all = tree.range(
        rt.alloc(),
        &memory,
        &Probe::Int(ZERO),
        &Probe::Int(ZERO + 48),
    )?;
    assert_eq!(rt; all.len(), 49);
    for number in 0..49 {
        if number < all.len() {
            assert_eq!(rt;
                all.get(number),
                Pair {
                    key: ZERO + u64::from(number),
                    code: number,
                    slot: (number % 24) as u8 + if number == 48 { 24 } else { 0 },
                }
            );
        }
    }
    Ok(())
}
