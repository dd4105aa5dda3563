ghost use Rattle.std.specs.Prelude.{IfOk};
ghost use Rattle.fp_tree.specs.Standing.{Stands};
ghost use Rattle.tree_ground.specs.Ready.{IsReady};

use crate::trees::{ZERO, tree_up_to};
use fp_inner::Probe;
use fp_tree::{NoMemory, PairList, Tree};
use heap_palloc::Heap;
use pm_model::{Memory, mix};
use std::alloc::Global;
use std::test::Fail;
use tree_ground::{GroundError, empty_tree, find, put};

// A key word and its code.
type Kept = (u64, u32);

// So many mixed numbers, no two of which are the same, by their turns.
fn mixed(alloc: Global, count: u32) -> Result<Vec<Kept>, NoMemory> {
    let mut kept = Vec::new(alloc);
    for number in 0..count {
        kept.push((mix(u64::from(number)), number))?;
    }
    Ok(kept)
}

// Puts pairs into a tree.
fn put_all<M: Memory>(
    alloc: Global,
    memory: &mut M,
    heap: &mut Heap,
    tree: &mut Tree,
    kept: &[Kept],
) -> Result<(), GroundError>
    requires { IsReady (M.device memory.old) heap.old tree.old }
    ensures { IfOk result (λ _. IsReady (M.device memory.new) heap.new tree.new) }
{
    for (key, code) in kept {
        put(alloc, memory, heap, tree, *key, *code)?;
    }
    Ok(())
}

// Whether a list of pairs has these key words and codes, in their order.
fn has_pairs(list: &PairList, kept: &[Kept]) -> bool {
    if list.len() as usize != kept.len() {
        return false;
    }
    for place in 0..list.len() {
        let pair = list.get(place);
        if Some(&(pair.key, pair.code)) != kept.get(place as usize) {
            return false;
        }
    }
    true
}

// Whether a tree has just these pairs, which stand in the order of their keys: each is found, and all are listed.
fn is_list<M: Memory>(
    alloc: Global,
    memory: &M,
    tree: &Tree,
    kept: &[Kept],
) -> Result<bool, NoMemory>
    requires { Stands (M.device memory.now).cached tree.now }
{
    for (key, code) in kept {
        if find(memory, tree, *key) != Some(*code) {
            return Ok(false);
        }
    }
    let all = tree.range(alloc, memory, &Probe::Int(0), &Probe::Int(u64::MAX))?;
    Ok(has_pairs(&all, kept))
}

#[test]
fn a_tree_has_the_pairs_of_a_sorted_list(rt: HostRuntime) -> Result<(), Fail> {
    let (mut memory, mut heap, mut tree) = empty_tree(rt.alloc(), 1)?;
    let mut kept = mixed(rt.alloc(), 2_000)?;
    put_all(rt.alloc(), &mut memory, &mut heap, &mut tree, &kept)?;
    kept.sort_unstable_by_key(|pair| pair.0);
    assert_eq!(rt; kept.len(), 2_000);
    assert!(rt; is_list(rt.alloc(), &memory, &tree, &kept)?);
    let low = kept[500].0;
    let high = kept[1_499].0;
    let middle = tree.range(rt.alloc(), &memory, &Probe::Int(low), &Probe::Int(high))?;
    assert!(rt; has_pairs(&middle, &kept[500..1_500]));
    Ok(())
}

// The first and the last integer of a range, and how many of 0 to 99 it has, the first of them.
const RANGES: [(u64, u64, u32, u32); 8] = [
    (0, 99, 100, 0),
    (0, 0, 1, 0),
    (23, 24, 2, 23),
    (24, 47, 24, 24),
    (10, 1_000, 90, 10),
    (99, 99, 1, 99),
    (100, 1_000, 0, 0),
    (50, 49, 0, 0),
];

#[test]
fn a_range_has_both_its_ends(rt: HostRuntime) -> Result<(), Fail> {
    let (memory, _heap, tree) = tree_up_to(rt.alloc(), 100)?;
    for (low, high, count, first) in RANGES {
        let list = tree.range(
            rt.alloc(),
            &memory,
            &Probe::Int(ZERO + low),
            &Probe::Int(ZERO + high),
        )?;
        assert_eq!(rt; list.len(), count, "from {low} to {high}");
        if count > 0 {
            assert!(rt; list.len() > 0);
            assert_eq!(rt; list.get(0).key, ZERO + u64::from(first));
        }
    }
    let none = tree.range(rt.alloc(), &memory, &Probe::Int(0), &Probe::Int(ZERO - 1))?;
    assert!(rt; none.is_empty());
    Ok(())
}
