// The pairs from one key to another.
ghost use Rattle.std.specs.Prelude.{◌≡◌, ◌+◌, ◌<◌, ◌≤◌, ◌++◌, [], ◌∷◌, IfOk, length, map, slice_index};
ghost use Rattle.fp_inner.specs.Keys.{kind_of, leaf_pointer};
ghost use Rattle.image_layout.specs.Pointer.{pointer_word};
ghost use Rattle.image_layout.specs.Trees.{leaf_pairs, pair_at};
ghost use Rattle.mv_model.specs.declared.shape.Kind.TheVariants.{Int as Ints};
ghost use Rattle.std.specs.Int.{bit_at};
ghost use Rattle.fp_tree.specs.Leaves.{without_slot};
ghost use Rattle.fp_tree.specs.Ranges.{from_to, is_from_to, pairs_from_to};
ghost use Rattle.fp_tree.specs.Standing.{IsSoundLeaf, Stands};

use crate::reading::{SLOTS, key_place};
use crate::tree::Tree;
use fp_inner::{Probe, Steps};
use fp_leaf::{Pair, PairList};
use pm_model::{Memory, NoMemory, Place};
use std::alloc::Global;
use std::marker::Brand;
use std::sync::ledger::{Blank, Ledger};

impl Tree {
    /// The pairs with keys from `low` to `high`, both included, in the order of their keys. Each pair has the slot of
    /// its leaf in which it stands.
    ///
    /// It visits the leaves from that of `low` to that of `high` alone, and takes memory for as many pairs as these
    /// have slots.
    pub fn range<M: Memory>(
        &self,
        alloc: Global,
        mem: &M,
        low: &Probe,
        high: &Probe,
    ) -> Result<PairList, NoMemory>
        requires stands { Stands (M.device mem.now).cached self.now }
        requires low { kind_of low.now ≡ self.now.inner.kind }
        requires high { kind_of high.now ≡ self.now.inner.kind }
        ensures { IfOk result (λ list. map without_slot list.pairs
            ≡ pairs_from_to (M.device mem.now).cached self.now.column low.now high.now) }
    {
        self.range_blank::<M, Brand>(alloc, mem, low, high, Blank::new(1))
    }

    fn range_blank<M: Memory, L: Ledger>(
        &self,
        alloc: Global,
        mem: &M,
        low: &Probe,
        high: &Probe,
        blank: Blank,
    ) -> Result<PairList, NoMemory>
        requires stands { Stands (M.device mem.now).cached self.now }
        requires low { kind_of low.now ≡ self.now.inner.kind }
        requires high { kind_of high.now ≡ self.now.inner.kind }
        requires name { blank.name ≡ L.name }
        requires parts { blank.parts ≡ L.parts }
        requires share { 0 < L.parts }
        ensures { IfOk result (λ list. map without_slot list.pairs
            ≡ pairs_from_to (M.device mem.now).cached self.now.column low.now high.now) }
    {
        if self.inner.is_empty() {
            return PairList::with_room(alloc, 0);
        }
        let mut steps = Steps::<L>::none(blank);
        let first = self.inner.leaf_for(mem, low, &mut steps);
        let end = self.inner.leaf_for(mem, high, &mut steps) + 1;
        let slots = u32::from(SLOTS) * end.saturating_sub(first) as u32;
        let mut list = PairList::with_room(alloc, slots)?;
        for at in first..end {
            let leaf = self.leaf_place(mem, at);
            push_from_to(&mut list, mem, leaf, low, high, &mut steps);
        }
        list.sort();
        Ok(list)
    }

    // The leaf with a number in the index.
    fn leaf_place<M: Memory>(&self, _mem: &M, at: usize) -> Place
        requires stands { Stands (M.device _mem.now).cached self.now }
        requires at { at < length self.now.inner.leaves }
        ensures { leaf_pointer self.now.inner.leaves at ≡ pointer_word result.0 }
    {
        self.inner.leaf_at(at).place().unwrap()
    }
}

// Adds the pairs of a leaf with keys from `low` to `high`, in the order of their slots.
fn push_from_to<M: Memory, L: Ledger>(
    list: &mut PairList,
    mem: &M,
    leaf: Place,
    low: &Probe,
    high: &Probe,
    steps: &mut Steps<L>,
)
    requires low { kind_of low.now ≡ Ints }
    requires high { kind_of high.now ≡ Ints }
    requires within { leaf.0 + 104 ≤ length (M.device mem.now).cached }
    requires sound { IsSoundLeaf (M.device mem.now).cached leaf.0 }
    requires room { 48 ≤ list.old.spare }
    ensures pairs { map without_slot list.new.pairs ≡ map without_slot list.old.pairs
        ++ from_to (M.device mem.now).cached low.now high.now (leaf_pairs (M.device mem.now).cached leaf.0) }
    ensures spare { list.old.spare ≤ list.new.spare + 48 }
{
    let bitmap = mem.load(leaf);
    for slot in 0..SLOTS {
        if (bitmap >> slot) % 2 == 1 {
            push_slot_from_to(list, mem, leaf, slot, low, high, steps);
        }
    }
}

// Adds the pair of a used slot of a leaf, where its key stands from `low` to `high`.
fn push_slot_from_to<M: Memory, L: Ledger>(
    list: &mut PairList,
    mem: &M,
    leaf: Place,
    slot: u8,
    low: &Probe,
    high: &Probe,
    steps: &mut Steps<L>,
)
    requires low { kind_of low.now ≡ Ints }
    requires high { kind_of high.now ≡ Ints }
    requires within { leaf.0 + 104 ≤ length (M.device mem.now).cached }
    requires slot { slot < 48 }
    requires sound { IsSoundLeaf (M.device mem.now).cached leaf.0 }
    requires used { bit_at (slice_index (M.device mem.now).cached leaf.0) slot ≡ 1 }
    requires room { 0 < list.old.spare }
    ensures pairs { map without_slot list.new.pairs ≡ map without_slot list.old.pairs
        ++ from_to (M.device mem.now).cached low.now high.now (pair_at (M.device mem.now).cached leaf.0 slot ∷ []) }
    ensures spare { list.old.spare ≤ list.new.spare + 1 }
{
    let at = key_place(leaf, slot);
    let key = mem.load(at);
    if is_from_to(mem, key, low, high, steps) {
        let code = mem.load(Place(at.0 + 1)) as u32;
        list.push(Pair { key, code, slot });
    }
}

// Whether a key stands from `low` to `high`.
fn is_from_to<M: Memory, L: Ledger>(
    mem: &M,
    key: u64,
    low: &Probe,
    high: &Probe,
    steps: &mut Steps<L>,
) -> bool
    requires low { kind_of low.now ≡ Ints }
    requires high { kind_of high.now ≡ Ints }
    ensures { result ≡ is_from_to (M.device mem.now).cached low.now high.now key }
{
    !low.compare(mem, key, steps).is_gt() && !high.compare(mem, key, steps).is_lt()
}
