// The split of a full leaf.
ghost use Rattle.std.specs.Prelude.{◌≡◌, ◌<◌, ◌≤◌, IfErr, IfOk, OnErr, length};
ghost use Rattle.fp_inner.specs.Keys.{IsLeafFor, kind_of};
ghost use Rattle.heap_palloc.specs.Calls.{IsFull};
ghost use Rattle.image_layout.specs.Trees.{leaf_list};
ghost use Rattle.fp_tree.specs.Planned.{IsRefused, IsSameTreeState, IsSplitPlanned, MayPlanLeaf};
ghost use Rattle.fp_tree.specs.Standing.{Stands, room_in};
ghost use Rattle.fp_tree.specs.declared.room.Room.TheVariants.{LeafFull};

use crate::halving::{HALF, SHARING_ACTIONS, push_sharing, sorted_pairs};
use crate::new_leaf::{ALLOCATION_ACTIONS, push_leaf};
use crate::tree::Tree;
use fp_inner::{Probe, Steps};
use heap_palloc::{AllocError, Heap};
use pm_model::{Memory, PPtr, Plan, split_leaf};
use std::alloc::Global;
use std::marker::Brand;
use std::sync::ledger::{Blank, Ledger};

// A store, a flush and a fence, by which the leaf is noted; the allocation; and the sharing.
const SPLIT_ACTIONS: u32 = 3 + ALLOCATION_ACTIONS + SHARING_ACTIONS;

impl Tree {
    /// Plans the split of the full leaf of what is looked for: a new leaf is allocated through the lane, takes the 24
    /// greatest pairs, and stands behind the old one.
    ///
    /// The plan may be played by any session, where the words that it writes are clean. Each cut of it shows the same
    /// pairs. Once it was played, the tree stands for the words, and has room for what is looked for.
    ///
    /// Errors: `Full` exactly where no slot of a leaf's class is free and no page is: it says that one page is needed,
    /// and that the longest run of free pages has none. `NoMemory` where a request for memory was refused. After either
    /// the heap and the leaves of the tree are as they were; the index may have room for one leaf more.
    pub fn plan_split<M: Memory>(
        &mut self,
        alloc: Global,
        mem: &M,
        heap: &mut Heap,
        lane: u8,
        probe: &Probe,
    ) -> Result<Plan, AllocError>
        requires stands { Stands (M.device mem.now).cached self.old }
        requires kind { kind_of probe.now ≡ self.old.inner.kind }
        requires full { room_in (M.device mem.now).cached probe.now
            (leaf_list (M.device mem.now).cached self.old.column) ≡ LeafFull }
        requires may { MayPlanLeaf (M.device mem.now).cached heap.old lane self.old.column }
        ensures planned { IfOk result (λ plan. IsSplitPlanned (M.device mem.now).cached heap.old heap.new lane
            self.old self.new probe.now plan.left) }
        ensures refused { IfErr result (IsRefused (M.device mem.now).cached) }
        ensures room { IfOk result (λ _. IsFull (M.device mem.now).cached 104 → ⊥) }
        ensures heap_unchanged { OnErr result (heap.new ≡ heap.old) }
        ensures unchanged { OnErr result (IsSameTreeState self.old self.new) }
    {
        let at = self.leaf_number(mem, probe);
        let leaf = self.inner.leaf_at(at).place().unwrap();
        let sorted = sorted_pairs(alloc, mem, leaf)?;
        let mut plan = Plan::with_room(alloc, SPLIT_ACTIONS)?;
        self.inner.reserve()?;
        // From here on the column's split log names the leaf: what is half done of the split is found.
        plan.push_store(split_leaf(self.column), PPtr::of(leaf).word());
        let new = push_leaf(alloc, mem, heap, lane, self.column, &mut plan)?;
        push_sharing(&mut plan, mem, self.column, leaf, new, &sorted);
        self.inner
            .insert(at + 1, sorted.get(HALF).key, PPtr::of(new));
        Ok(plan)
    }

    // The number of the leaf of what is looked for in the index.
    fn leaf_number<M: Memory>(&self, mem: &M, probe: &Probe) -> usize
        requires stands { Stands (M.device mem.now).cached self.now }
        requires kind { kind_of probe.now ≡ self.now.inner.kind }
        requires some { 0 < length self.now.inner.leaves }
        ensures { IsLeafFor (M.device mem.now).cached self.now.inner.leaves probe.now result }
    {
        self.leaf_number_blank::<M, Brand>(mem, probe, Blank::new(1))
    }

    fn leaf_number_blank<M: Memory, L: Ledger>(&self, mem: &M, probe: &Probe, blank: Blank) -> usize
        requires stands { Stands (M.device mem.now).cached self.now }
        requires kind { kind_of probe.now ≡ self.now.inner.kind }
        requires some { 0 < length self.now.inner.leaves }
        requires name { blank.name ≡ L.name }
        requires parts { blank.parts ≡ L.parts }
        requires share { 0 < L.parts }
        ensures { IsLeafFor (M.device mem.now).cached self.now.inner.leaves probe.now result }
    {
        self.inner
            .leaf_for(mem, probe, &mut Steps::<L>::none(blank))
    }
}
