// Pairs that are put into the tree of a column, and found there.
ghost use Rattle.std.specs.Prelude.{◌≡◌, ◌<◌, ◌≤◌, [], IfNone, IfOk, IfSome};
ghost use Rattle.image_layout.specs.Trees.{leaf_list};
ghost use Rattle.mv_model.specs.declared.shape.Kind.TheVariants.{Int as Ints};
ghost use Rattle.fp_inner.specs.Keys.{kind_of};
ghost use Rattle.fp_inner.specs.declared.probe.Probe.TheVariants.{Int};
ghost use Rattle.fp_tree.specs.Standing.{HasNoKey, HasPair, Stands, room_in};
ghost use Rattle.fp_tree.specs.declared.room.Room.TheVariants.{Free, LeafFull};
ghost use Rattle.pm_model.specs.Plain.{device_of};
ghost use Rattle.tree_ground.specs.Ready.{IsColumn, IsReady};

use crate::column::empty_column;
use crate::error::GroundError;
use fp_inner::{Probe, Steps};
use fp_tree::{AllocError, NoMemory, Room, Tree, rebuild};
use heap_palloc::Heap;
use pm_model::{Memory, Place, Plain};
use std::alloc::Global;
use std::marker::Brand;
use std::sync::ledger::{Blank, Ledger};
use test_ground::play_whole;

/// A formatted image of so many segments with the table `t a:int`, its heap, and the tree of the column, without a leaf.
pub fn empty_tree(alloc: Global, segments: u32) -> Result<(Plain, Heap, Tree), GroundError>
    requires some { 1 ≤ segments }
    requires most { segments ≤ 128 }
    ensures { IfOk result (λ made. IsReady (device_of made.0) made.1 made.2) }
{
    let (memory, heap, column) = empty_column(alloc, segments)?;
    let tree = ready_tree(alloc, &memory, &heap, column)?;
    Ok((memory, heap, tree))
}

/// The tree of a column. The heap is that of the memory.
pub fn ready_tree<M: Memory>(
    alloc: Global,
    memory: &M,
    _heap: &Heap,
    column: Place,
) -> Result<Tree, NoMemory>
    requires { IsColumn (M.device memory.now) _heap.now column.0 }
    ensures { IfOk result (λ tree. IsReady (M.device memory.now) _heap.now tree) }
{
    rebuild(alloc, memory, column)
}

/// The code of an integer, by its key word.
pub fn find<M: Memory>(memory: &M, tree: &Tree, key: u64) -> Option<u32>
    requires { Stands (M.device memory.now).cached tree.now }
    ensures found { IfSome result (HasPair (M.device memory.now).cached tree.now.column (Int key)) }
    ensures none { IfNone result (HasNoKey (M.device memory.now).cached tree.now.column (Int key)) }
{
    find_blank::<M, Brand>(memory, tree, key, Blank::new(1))
}

fn find_blank<M: Memory, L: Ledger>(memory: &M, tree: &Tree, key: u64, blank: Blank) -> Option<u32>
    requires stands { Stands (M.device memory.now).cached tree.now }
    requires name { blank.name ≡ L.name }
    requires parts { blank.parts ≡ L.parts }
    requires share { 0 < L.parts }
    ensures found { IfSome result (HasPair (M.device memory.now).cached tree.now.column (Int key)) }
    ensures none { IfNone result (HasNoKey (M.device memory.now).cached tree.now.column (Int key)) }
{
    tree.find(memory, &Probe::Int(key), &mut Steps::<L>::none(blank))
}

/// Plays what gives a key room: a first leaf where the tree has none, a split where the key's leaf is full. It says what
/// room there was.
pub fn make_room<M: Memory>(
    alloc: Global,
    memory: &mut M,
    heap: &mut Heap,
    tree: &mut Tree,
    probe: &Probe,
) -> Result<Room, AllocError>
    requires ready { IsReady (M.device memory.old) heap.old tree.old }
    requires kind { kind_of probe.now ≡ Ints }
    ensures ready { IfOk result (λ _. IsReady (M.device memory.new) heap.new tree.new) }
    ensures room { IfOk result (λ _. room_in (M.device memory.new).cached probe.now
        (leaf_list (M.device memory.new).cached tree.new.column) ≡ Free) }
{
    match tree.room(memory, probe) {
        Room::Free => Ok(Room::Free),
        Room::NoLeaf => {
            play_first(alloc, memory, heap, tree, probe)?;
            Ok(Room::NoLeaf)
        }
        Room::LeafFull => {
            play_split(alloc, memory, heap, tree, probe)?;
            Ok(Room::LeafFull)
        }
    }
}

// Plays the first leaf, which has room for any key.
fn play_first<M: Memory>(
    alloc: Global,
    memory: &mut M,
    heap: &mut Heap,
    tree: &mut Tree,
    _probe: &Probe,
) -> Result<(), AllocError>
    requires ready { IsReady (M.device memory.old) heap.old tree.old }
    requires kind { kind_of _probe.now ≡ Ints }
    requires none { leaf_list (M.device memory.old).cached tree.old.column ≡ [] }
    ensures ready { IfOk result (λ _. IsReady (M.device memory.new) heap.new tree.new) }
    ensures room { IfOk result (λ _. room_in (M.device memory.new).cached _probe.now
        (leaf_list (M.device memory.new).cached tree.new.column) ≡ Free) }
{
    let mut plan = tree.plan_first(alloc, memory, heap, 0)?;
    play_whole(memory, 1, &mut plan);
    Ok(())
}

// Plays the split of a key's full leaf.
fn play_split<M: Memory>(
    alloc: Global,
    memory: &mut M,
    heap: &mut Heap,
    tree: &mut Tree,
    probe: &Probe,
) -> Result<(), AllocError>
    requires ready { IsReady (M.device memory.old) heap.old tree.old }
    requires kind { kind_of probe.now ≡ Ints }
    requires full { room_in (M.device memory.old).cached probe.now
        (leaf_list (M.device memory.old).cached tree.old.column) ≡ LeafFull }
    ensures ready { IfOk result (λ _. IsReady (M.device memory.new) heap.new tree.new) }
    ensures room { IfOk result (λ _. room_in (M.device memory.new).cached probe.now
        (leaf_list (M.device memory.new).cached tree.new.column) ≡ Free) }
{
    let mut plan = tree.plan_split(alloc, memory, heap, 0, probe)?;
    play_whole(memory, 1, &mut plan);
    Ok(())
}

/// Puts an integer that isn't there into a tree, by its key word, with its code.
pub fn put<M: Memory>(
    alloc: Global,
    memory: &mut M,
    heap: &mut Heap,
    tree: &mut Tree,
    key: u64,
    code: u32,
) -> Result<(), GroundError>
    requires { IsReady (M.device memory.old) heap.old tree.old }
    ensures { IfOk result (λ _. IsReady (M.device memory.new) heap.new tree.new) }
{
    make_room(alloc, memory, heap, tree, &Probe::Int(key))?;
    if find(memory, tree, key).is_some() {
        return Err(GroundError::Unexpected);
    }
    insert(alloc, memory, heap, tree, key, code)?;
    Ok(())
}

// Plays the insertion of an integer that has room.
fn insert<M: Memory>(
    alloc: Global,
    memory: &mut M,
    _heap: &Heap,
    tree: &Tree,
    key: u64,
    code: u32,
) -> Result<(), NoMemory>
    requires ready { IsReady (M.device memory.old) _heap.now tree.now }
    requires absent { HasNoKey (M.device memory.old).cached tree.now.column (Int key) }
    requires room { room_in (M.device memory.old).cached (Int key)
        (leaf_list (M.device memory.old).cached tree.now.column) ≡ Free }
    ensures { IfOk result (λ _. IsReady (M.device memory.new) _heap.now tree.now) }
{
    let mut plan = tree.plan_insert(alloc, memory, None, key, &Probe::Int(key), code)?;
    play_whole(memory, 1, &mut plan);
    Ok(())
}
