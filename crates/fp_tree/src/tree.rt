// The tree of a column: its leaves in the image, and the index above them.
ghost use Rattle.std.specs.Prelude.{◌≡◌, ◌+◌, ◌<◌, ◌≤◌, [], IfNone, IfSome, length};
ghost use Rattle.fp_inner.specs.Keys.{binary_digits, kind_of};
ghost use Rattle.image_layout.specs.Trees.{leaf_list};
ghost use Rattle.fp_tree.specs.Searched.{IsLeafAt};
ghost use Rattle.fp_tree.specs.Standing.{HasNoKey, HasPair, Stands, likely_slots, room_in};

use crate::reading::{find_in_leaf, is_full};
use crate::room::Room;
use fp_inner::{Inner, Probe, Steps};
use pm_model::{Memory, Place};
use std::marker::{Brand, Model};
use std::sync::ledger::{Blank, Ledger};

/// The tree of a column, which is named by the place of its record. It stands for the words of a memory: their leaves
/// are its leaves.
#[derive(Drop)]
pub struct Tree {
    pub(crate) column: Place,
    pub(crate) inner: Inner,
}

impl Model for Tree {
    ghost use Rattle.fp_tree.specs.TreeState.{TreeState};

    ghost Value = { TreeState };

    ghost view = { λ tree. record { column = tree.column.0; inner = tree.inner } };
}

impl Tree {
    /// The tree of the column with this record, and this index.
    pub(crate) fn of(column: Place, inner: Inner) -> Tree
        ensures column { result.column ≡ column.0 }
        ensures inner { result.inner ≡ inner }
    {
        Tree { column, inner }
    }

    /// The code of a key. It visits one leaf, and compares keys there only at slots with the fingerprint of what is
    /// looked for. A step is one comparison.
    pub fn find<M: Memory, L: Ledger>(
        &self,
        mem: &M,
        probe: &Probe,
        steps: &mut Steps<L>,
    ) -> Option<u32>
        requires stands { Stands (M.device mem.now).cached self.now }
        requires kind { kind_of probe.now ≡ self.now.inner.kind }
        ensures found { IfSome result (HasPair (M.device mem.now).cached self.now.column probe.now) }
        ensures none { IfNone result (HasNoKey (M.device mem.now).cached self.now.column probe.now) }
        ensures steps { steps.new ≤ steps.old + binary_digits (length self.now.inner.leaves)
            + likely_slots (M.device mem.now).cached self.now.column probe.now }
    {
        match self.leaf_counted(mem, probe, steps) {
            Some(leaf) => find_in_leaf(mem, leaf, probe, steps),
            None => None,
        }
    }

    /// Whether there is room for a key: the leaf in which it would stand has a free slot or none, or the tree has no
    /// leaf.
    pub fn room<M: Memory>(&self, mem: &M, probe: &Probe) -> Room
        requires stands { Stands (M.device mem.now).cached self.now }
        requires kind { kind_of probe.now ≡ self.now.inner.kind }
        ensures { result ≡ room_in (M.device mem.now).cached probe.now
            (leaf_list (M.device mem.now).cached self.now.column) }
    {
        match self.leaf(mem, probe) {
            None => Room::NoLeaf,
            Some(leaf) => {
                if is_full(mem, leaf) {
                    Room::LeafFull
                } else {
                    Room::Free
                }
            }
        }
    }

    // The leaf of what is looked for, where the tree has one.
    fn leaf_counted<M: Memory, L: Ledger>(
        &self,
        mem: &M,
        probe: &Probe,
        steps: &mut Steps<L>,
    ) -> Option<Place>
        requires stands { Stands (M.device mem.now).cached self.now }
        requires kind { kind_of probe.now ≡ self.now.inner.kind }
        ensures none { IfNone result (self.now.inner.leaves ≡ []) }
        ensures leaf { IfSome result (λ leaf. IsLeafAt (M.device mem.now).cached self.now probe.now leaf.0) }
        ensures steps { steps.new ≤ steps.old + binary_digits (length self.now.inner.leaves) }
    {
        if self.inner.is_empty() {
            return None;
        }
        let at = self.inner.leaf_for(mem, probe, steps);
        self.inner.leaf_at(at).place()
    }

    // The same, uncounted.
    pub(crate) fn leaf<M: Memory>(&self, mem: &M, probe: &Probe) -> Option<Place>
        requires stands { Stands (M.device mem.now).cached self.now }
        requires kind { kind_of probe.now ≡ self.now.inner.kind }
        ensures none { IfNone result (self.now.inner.leaves ≡ []) }
        ensures leaf { IfSome result (λ leaf. IsLeafAt (M.device mem.now).cached self.now probe.now leaf.0) }
    {
        self.leaf_blank::<M, Brand>(mem, probe, Blank::new(1))
    }

    fn leaf_blank<M: Memory, L: Ledger>(
        &self,
        mem: &M,
        probe: &Probe,
        blank: Blank,
    ) -> Option<Place>
        requires stands { Stands (M.device mem.now).cached self.now }
        requires kind { kind_of probe.now ≡ self.now.inner.kind }
        requires name { blank.name ≡ L.name }
        requires parts { blank.parts ≡ L.parts }
        requires share { 0 < L.parts }
        ensures none { IfNone result (self.now.inner.leaves ≡ []) }
        ensures leaf { IfSome result (λ leaf. IsLeafAt (M.device mem.now).cached self.now probe.now leaf.0) }
    {
        self.leaf_counted(mem, probe, &mut Steps::<L>::none(blank))
    }
}
