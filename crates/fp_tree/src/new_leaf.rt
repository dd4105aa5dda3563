// The allocation of a leaf.
ghost use Rattle.std.specs.Prelude.{◌≡◌, ◌+◌, ◌≤◌, IfErr, IfOk, OnErr, slice_index};
ghost use Rattle.heap_palloc.specs.Calls.{IsFull};
ghost use Rattle.image_layout.specs.Records.{new_leaf_at};
ghost use Rattle.fp_tree.specs.Planned.{IsLeafAllocated, IsRefused, MayPlanLeaf};

use crate::reading::LEAF_WORDS;
use heap_palloc::{AllocError, Heap, plan_allocate};
use pm_model::{Memory, Place, Plan, new_leaf};
use std::alloc::Global;

/// No more actions than the allocation of a leaf has, with the page that is made small first.
pub(crate) const ALLOCATION_ACTIONS: u32 = 23;

/// Adds the allocation of a leaf into the word for a column's new leaf, and gives where the leaf begins.
pub(crate) fn push_leaf<M: Memory>(
    alloc: Global,
    mem: &M,
    heap: &mut Heap,
    lane: u8,
    column: Place,
    plan: &mut Plan,
) -> Result<Place, AllocError>
    requires may { MayPlanLeaf (M.device mem.now).cached heap.old lane column.0 }
    requires empty { slice_index (M.device mem.now).cached (new_leaf_at column.0) ≡ 0 }
    requires room { 23 ≤ plan.old.spare }
    ensures allocated { IfOk result (λ leaf. IsLeafAllocated (M.device mem.now).cached heap.old heap.new lane column.0
        leaf.0 plan.old.left plan.new.left) }
    ensures spare { IfOk result (λ _. plan.old.spare ≤ plan.new.spare + 23) }
    ensures refused { IfErr result (IsRefused (M.device mem.now).cached) }
    ensures room { IfOk result (λ _. IsFull (M.device mem.now).cached 104 → ⊥) }
    ensures unchanged { OnErr result (heap.new ≡ heap.old) }
{
    let (allocation, block) = plan_allocate(alloc, mem, heap, lane, LEAF_WORDS, new_leaf(column))?;
    plan.append(allocation);
    Ok(block.first)
}
