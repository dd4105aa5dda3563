// What the words of a leaf say of what is looked for.
ghost use Rattle.std.specs.Prelude.{◌≡◌, ◌+◌, ◌*◌, ◌<◌, ◌≤◌, ℕ, IfNone, IfSome, length, slice_index};
ghost use Rattle.fp_inner.specs.Keys.{kind_of};
ghost use Rattle.image_layout.specs.Trees.{is_full_leaf};
ghost use Rattle.mv_model.specs.declared.shape.Kind.TheVariants.{Int as Ints};
ghost use Rattle.tree_cuts.specs.Tree.{HasPrints};
ghost use Rattle.fp_tree.specs.Searched.{IsFoundIn, IsNotIn};
ghost use Rattle.fp_tree.specs.Standing.{IsSoundLeaf, count_below, is_likely, print_of};

use fp_inner::{Probe, Steps};
use fp_leaf::{int_fingerprint, matches, text_fingerprint};
use heap_small::without;
use pm_model::{Memory, Place};
use std::sync::ledger::Ledger;

/// How many words a leaf has.
pub(crate) const LEAF_WORDS: u32 = 104;

/// How many slots a leaf has.
pub(crate) const SLOTS: u8 = 48;

/// The bitmap of a leaf without a free slot.
pub(crate) const FULL: u64 = (1 << SLOTS) - 1;

// The words before the first pair: the bitmap, the next pointer and the fingerprints.
const HEAD_WORDS: u32 = 8;

/// The first words of a leaf, so many of them. The others are 0.
pub(crate) fn first_words<M: Memory>(mem: &M, leaf: Place, count: u32) -> [u64; 104]
    requires count { count ≤ 104 }
    requires within { leaf.0 + 104 ≤ length (M.device mem.now).cached }
    ensures { (word : ℕ) → word < count →
        slice_index result word ≡ slice_index (M.device mem.now).cached (leaf.0 + word) }
{
    let mut words = [0; LEAF_WORDS as usize];
    for word in 0..count {
        words[word as usize] = mem.load(Place(leaf.0 + word));
    }
    words
}

/// The fingerprint of what is looked for.
#[tactic(auto, unfolding(crate::specs::Standing::print_of))]
pub(crate) fn fingerprint(probe: &Probe) -> u8
    ensures { result ≡ print_of probe.now }
{
    match probe {
        Probe::Int(key) => int_fingerprint(*key),
        Probe::Text(text) => text_fingerprint(text.as_str().as_bytes()),
    }
}

/// Whether no slot of a leaf is free.
pub(crate) fn is_full<M: Memory>(mem: &M, leaf: Place) -> bool
    requires within { leaf.0 + 104 ≤ length (M.device mem.now).cached }
    ensures { result ≡ is_full_leaf (M.device mem.now).cached leaf.0 }
{
    mem.load(leaf) == FULL
}

/// The place of the key word of a slot, behind which its code stands.
pub(crate) fn key_place(leaf: Place, slot: u8) -> Place
    requires leaf { leaf.0 < 4194304 }
    ensures { result.0 ≡ leaf.0 + 8 + 2 * slot }
{
    Place(leaf.0 + HEAD_WORDS + 2 * u32::from(slot))
}

/// The code of what is looked for in a leaf. It compares keys only at slots with its fingerprint, and counts these.
pub(crate) fn find_in_leaf<M: Memory, L: Ledger>(
    mem: &M,
    leaf: Place,
    probe: &Probe,
    steps: &mut Steps<L>,
) -> Option<u32>
    requires kind { kind_of probe.now ≡ Ints }
    requires within { leaf.0 + 104 ≤ length (M.device mem.now).cached }
    requires prints { HasPrints (M.device mem.now).cached leaf.0 }
    requires sound { IsSoundLeaf (M.device mem.now).cached leaf.0 }
    ensures found { IfSome result (IsFoundIn (M.device mem.now).cached leaf.0 probe.now) }
    ensures none { IfNone result (IsNotIn (M.device mem.now).cached leaf.0 probe.now) }
    ensures steps { steps.new ≤ steps.old + count_below (is_likely (M.device mem.now).cached leaf.0 probe.now) 48 }
{
    let mut left = matches(&first_words(mem, leaf, HEAD_WORDS), fingerprint(probe));
    while left != 0 {
        let slot = left.trailing_zeros() as u8;
        let at = key_place(leaf, slot);
        if probe.compare(mem, mem.load(at), steps).is_eq() {
            return Some(mem.load(Place(at.0 + 1)) as u32);
        }
        left = without(left, slot);
    }
    None
}
