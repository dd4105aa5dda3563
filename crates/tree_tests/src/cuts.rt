ghost use Rattle.std.specs.Prelude.{◌^◌, ◌≤◌, IfOk};
ghost use Rattle.pm_model.specs.Plans.{MayPlay};
ghost use Rattle.tree_ground.specs.Ready.{IsReady};

use crate::trees::{COLUMN, ZERO, tree_up_to};
use fp_inner::Probe;
use fp_tree::{AllocError, NoMemory, Room, Tree};
use heap_palloc::Heap;
use pm_model::{Keep, Memory, Plan, play};
use std::alloc::Global;
use std::process::Abort;
use std::test::Fail;
use tree_ground::find;

// A key word and a code word of an image.
type Seen = (u64, u64);

// The bitmap of a leaf without a free slot.
const FULL: u64 = 0xffff_ffff_ffff;

fn word(words: &[u64], place: usize) -> u64 {
    words.get(place).copied().unwrap_or(0)
}

// The place that a pointer names.
fn named(pointer: u64) -> usize
    ensures { result ≤ 2 ^ 48 }
{
    ((pointer >> 32).saturating_sub(1) * 32_768 + pointer % (1 << 32)) as usize
}

// Adds the pairs of the used slots of a leaf.
fn push_leaf(seen: &mut Vec<Seen>, words: &[u64], leaf: usize) -> Result<(), NoMemory>
    requires { leaf ≤ 2 ^ 48 }
{
    let bitmap = word(words, leaf);
    for slot in 0..48 {
        if (bitmap >> slot) % 2 == 1 {
            let key = leaf + 8 + 2 * slot;
            seen.push((word(words, key), word(words, key + 1)))?;
        }
    }
    Ok(())
}

// The pairs of the column in an image, sorted by key: those of the leaves along the next words, and behind a leaf that
// was split those of the new one, where it isn't linked yet.
fn pairs_in(alloc: Global, words: &[u64]) -> Result<Vec<Seen>, NoMemory> {
    let column = COLUMN.0 as usize;
    let split = word(words, column + 5);
    let new = word(words, column + 6);
    let mut seen = Vec::new(alloc);
    let mut pointer = word(words, column + 4);
    for _ in 0..100 {
        if pointer == 0 {
            break;
        }
        let leaf = named(pointer);
        push_leaf(&mut seen, words, leaf)?;
        let next = word(words, leaf + 1);
        if pointer == split && new != 0 && word(words, leaf) != FULL && next != new {
            push_leaf(&mut seen, words, named(new))?;
        }
        pointer = next;
    }
    seen.sort_unstable_by_key(|pair| pair.0);
    Ok(seen)
}

// The pairs of the integers from 0 up to one.
fn pairs_up_to(alloc: Global, count: u32) -> Result<Vec<Seen>, NoMemory> {
    let mut pairs = Vec::new(alloc);
    for number in 0..count {
        pairs.push((ZERO + u64::from(number), u64::from(number)))?;
    }
    Ok(pairs)
}

// The next plan of a tree into which an integer is put: the first leaf, the split of its leaf, or its insertion.
fn next_plan<M: Memory>(
    rt: &impl Abort,
    alloc: Global,
    memory: &M,
    heap: &mut Heap,
    tree: &mut Tree,
    number: u32,
) -> Result<Plan, AllocError>
    requires { IsReady (M.device memory.now) heap.old tree.old }
    ensures { IfOk result (λ plan. MayPlay 1 plan.left (M.device memory.now)) }
{
    let key = ZERO + u64::from(number);
    let probe = Probe::Int(key);
    match tree.room(memory, &probe) {
        Room::NoLeaf => tree.plan_first(alloc, memory, heap, 0),
        Room::LeafFull => tree.plan_split(alloc, memory, heap, 0, &probe),
        Room::Free => {
            assert_eq!(rt; find(memory, tree, key), None);
            Ok(tree.plan_insert(alloc, memory, None, key, &probe, number)?)
        }
    }
}

// Whether each of three cuts of a memory shows the pairs of one of these lists.
fn shows_one_of<M: Memory>(
    alloc: Global,
    memory: &M,
    before: &[Seen],
    after: &[Seen],
) -> Result<bool, NoMemory> {
    for keep in [Keep::Nothing, Keep::All, Keep::Mix(5)] {
        let seen = pairs_in(alloc, &memory.choose(keep)?)?;
        if seen.as_slice() != before && seen.as_slice() != after {
            return Ok(false);
        }
    }
    Ok(true)
}

// Cuts a plan before it, after each of its actions, and behind it.
fn cut_everywhere<M: Memory>(
    rt: &impl Abort,
    alloc: Global,
    memory: &mut M,
    plan: &mut Plan,
    before: &[Seen],
    after: &[Seen],
) -> Result<(), NoMemory>
    requires { MayPlay 1 plan.old.left (M.device memory.old) }
{
    assert!(rt; shows_one_of(alloc, memory, before, before)?);
    for played in 0..plan.len() {
        play(memory, 1, plan, 1);
        let shown = shows_one_of(alloc, memory, before, after)?;
        assert!(rt; shown, "after action {played}");
    }
    assert!(rt; shows_one_of(alloc, memory, after, after)?);
    Ok(())
}

// How many integers a tree has, how many actions its next plan has, and how many integers it has then.
// - A first leaf: an allocation of 16 actions, 4 by which it is made empty, and twice 3.
// - An insertion: three stores with two flushes and a fence, and 3 for the bitmap; into the one leaf or the second.
// - A split: 3 by which it is noted, an allocation of 16, the copy of 56 stores in seven lines and a fence, and 4 times 3.
const CASES: [(u32, u32, u32); 4] = [(0, 26, 0), (20, 9, 21), (48, 95, 48), (49, 9, 50)];

#[test]
fn each_cut_shows_the_pairs_before_or_after(rt: HostRuntime) -> Result<(), Fail> {
    for (count, actions, more) in CASES {
        let (mut memory, mut heap, mut tree) = tree_up_to(rt.alloc(), count)?;
        let mut plan = next_plan(&rt, rt.alloc(), &memory, &mut heap, &mut tree, count)?;
        assert_eq!(rt; plan.len(), actions, "with {count}");
        let before = pairs_up_to(rt.alloc(), count)?;
        let after = pairs_up_to(rt.alloc(), more)?;
        cut_everywhere(&rt, rt.alloc(), &mut memory, &mut plan, &before, &after)?;
    }
    Ok(())
}
