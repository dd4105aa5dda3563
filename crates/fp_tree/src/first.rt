// The first leaf of a tree.
ghost use Rattle.std.specs.Prelude.{◌≡◌, ◌+◌, ◌<◌, ◌≤◌, ◌++◌, [], IfErr, IfOk, OnErr};
ghost use Rattle.heap_palloc.specs.Calls.{IsFull};
ghost use Rattle.image_layout.specs.Pointer.{pointer_word};
ghost use Rattle.image_layout.specs.Trees.{leaf_list};
ghost use Rattle.pm_model.specs.Plans.{plan_of};
ghost use Rattle.shown_state.specs.Mending.{first_leaf_parts};
ghost use Rattle.fp_tree.specs.Planned.{IsFirstPlanned, IsRefused, IsSameTreeState, MayPlanLeaf};
ghost use Rattle.fp_tree.specs.Standing.{Stands};

use crate::new_leaf::{ALLOCATION_ACTIONS, push_leaf};
use crate::tree::Tree;
use heap_palloc::{AllocError, Heap};
use pm_model::{Action, Memory, PPtr, Place, Plan, first_leaf, new_leaf};
use std::alloc::Global;

// The two stores of an empty leaf, at most two flushes and a fence; and twice a store, a flush and a fence.
const FIRST_ACTIONS: u32 = 11;

impl Tree {
    /// Plans the first leaf of a tree without one: it is allocated through the lane, made empty, and becomes the first.
    ///
    /// The plan may be played by any session, where the words that it writes are clean. Once it was played, the tree
    /// stands for the words, and has room for any key.
    ///
    /// Errors: `Full` exactly where no slot of a leaf's class is free and no page is: it says that one page is needed,
    /// and that the longest run of free pages has none. `NoMemory` where a request for memory was refused. After either
    /// the heap and the leaves of the tree are as they were; the index may have room for one leaf more.
    pub fn plan_first<M: Memory>(
        &mut self,
        alloc: Global,
        mem: &M,
        heap: &mut Heap,
        lane: u8,
    ) -> Result<Plan, AllocError>
        requires stands { Stands (M.device mem.now).cached self.old }
        requires none { leaf_list (M.device mem.now).cached self.old.column ≡ [] }
        requires may { MayPlanLeaf (M.device mem.now).cached heap.old lane self.old.column }
        ensures planned { IfOk result (λ plan.
            IsFirstPlanned (M.device mem.now).cached heap.old heap.new lane self.old self.new plan.left) }
        ensures refused { IfErr result (IsRefused (M.device mem.now).cached) }
        ensures room { IfOk result (λ _. IsFull (M.device mem.now).cached 104 → ⊥) }
        ensures heap_unchanged { OnErr result (heap.new ≡ heap.old) }
        ensures unchanged { OnErr result (IsSameTreeState self.old self.new) }
    {
        let mut plan = Plan::with_room(alloc, ALLOCATION_ACTIONS + FIRST_ACTIONS)?;
        self.inner.reserve()?;
        let leaf = push_leaf(alloc, mem, heap, lane, self.column, &mut plan)?;
        push_first(&mut plan, self.column, leaf);
        self.inner.insert(0, 0, PPtr::of(leaf));
        Ok(plan)
    }
}

// Adds the parts by which an allocated leaf becomes the first one.
fn push_first(plan: &mut Plan, column: Place, leaf: Place)
    requires column { column.0 + 40 ≤ 4194304 }
    requires leaf { leaf.0 + 104 ≤ 4194304 }
    requires room { 11 ≤ plan.old.spare }
    ensures { plan.new.left ≡ plan.old.left ++ plan_of (first_leaf_parts column.0 (pointer_word leaf.0)) }
{
    plan.push(Action::Store {
        place: leaf,
        value: 0,
    });
    plan.push(Action::Store {
        place: Place(leaf.0 + 1),
        value: 0,
    });
    // The leaf is empty and fenced before it is the first one: else its block's old words would be pairs.
    plan.end_part(2);
    // From here on it is the first leaf.
    plan.push_store(first_leaf(column), PPtr::of(leaf).word());
    plan.push_store(new_leaf(column), 0);
}
