// The tree from the words.
ghost use Rattle.std.specs.Prelude.{◌≡◌, ◌≢◌, ◌⊎◌, ◌<◌, ◌≤◌, ◌^◌, ◌+◌, ℕ, IfOk, length, slice_index};
ghost use Rattle.image_layout.specs.Pointer.{pointer_word};
ghost use Rattle.image_layout.specs.Records.{first_leaf_at};
ghost use Rattle.fp_tree.specs.Entries.{AreEntries, HasAdded, HasFound};
ghost use Rattle.fp_tree.specs.Standing.{HasSoundTree, IsLeastKey, Stands};

use crate::reading::{SLOTS, key_place};
use crate::tree::Tree;
use fp_inner::Inner;
use mv_model::Kind;
use pm_model::{Memory, NoMemory, PPtr, Place, first_leaf, named_place};
use std::alloc::Global;

/// The tree of the column with this record, in one pass over its leaves. A leaf without a pair isn't given to the
/// index, unless no leaf has one: then the first is.
pub fn rebuild<M: Memory>(alloc: Global, mem: &M, column: Place) -> Result<Tree, NoMemory>
    requires { HasSoundTree (M.device mem.now).cached column.0 }
    ensures column { IfOk result (λ tree. tree.column ≡ column.0) }
    ensures stands { IfOk result (Stands (M.device mem.now).cached) }
{
    let mut leaves = leaves_with_keys(alloc, mem, column)?;
    add_first(mem, column, &mut leaves)?;
    let inner = Inner::build(alloc, mem, Kind::Int, &leaves)?;
    Ok(Tree::of(column, inner))
}

// The leaves with a pair, in their order, each with its least key and its pointer.
fn leaves_with_keys<M: Memory>(
    alloc: Global,
    mem: &M,
    column: Place,
) -> Result<Vec<(u64, PPtr)>, NoMemory>
    requires { HasSoundTree (M.device mem.now).cached column.0 }
    ensures { IfOk result (λ leaves. HasFound (M.device mem.now).cached column.0 leaves.items) }
{
    let mut leaves = Vec::new(alloc);
    let mut at = first_leaf(column);
    for turn in 0..mem.len() {
        if mem.load(at) == 0 {
            return Ok(leaves);
        }
        let leaf = named_place(mem, at);
        add_leaf(mem, leaf, &mut leaves)?;
        at = Place(leaf.0 + 1);
    }
    Ok(leaves)
}

// Adds a leaf, where it has a pair.
fn add_leaf<M: Memory>(mem: &M, leaf: Place, leaves: &mut Vec<(u64, PPtr)>) -> Result<(), NoMemory>
    requires within { leaf.0 + 104 ≤ length (M.device mem.now).cached }
    requires bitmap { slice_index (M.device mem.now).cached leaf.0 < 2 ^ 48 }
    ensures { IfOk result (λ _. HasAdded (M.device mem.now).cached leaf.0 leaves.old.items leaves.new.items) }
{
    if mem.load(leaf) == 0 {
        return Ok(());
    }
    leaves.push((least_key(mem, leaf), PPtr::of(leaf)))?;
    Ok(())
}

// Where none was found, adds the first leaf of the column, if there is one.
fn add_first<M: Memory>(
    mem: &M,
    column: Place,
    leaves: &mut Vec<(u64, PPtr)>,
) -> Result<(), NoMemory>
    requires tree { HasSoundTree (M.device mem.now).cached column.0 }
    requires found { HasFound (M.device mem.now).cached column.0 leaves.old.items }
    ensures { IfOk result (λ _. AreEntries (M.device mem.now).cached column.0 leaves.new.items) }
{
    if leaves.len() > 0 {
        return Ok(());
    }
    let at = first_leaf(column);
    if mem.load(at) == 0 {
        return Ok(());
    }
    leaves.push((0, PPtr::of(named_place(mem, at))))?;
    Ok(())
}

// The least key of a leaf with a pair.
fn least_key<M: Memory>(mem: &M, leaf: Place) -> u64
    requires within { leaf.0 + 104 ≤ length (M.device mem.now).cached }
    requires bitmap { slice_index (M.device mem.now).cached leaf.0 < 2 ^ 48 }
    requires some { slice_index (M.device mem.now).cached leaf.0 ≢ 0 }
    ensures { IsLeastKey (M.device mem.now).cached leaf.0 result }
{
    let bitmap = mem.load(leaf);
    let mut least = mem.load(key_place(leaf, bitmap.trailing_zeros() as u8));
    for slot in 0..SLOTS {
        if (bitmap >> slot) % 2 == 1 {
            least = least.min(mem.load(key_place(leaf, slot)));
        }
    }
    least
}
