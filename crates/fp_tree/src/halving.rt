// The greater half of a full leaf, which goes to a new leaf.
ghost use Rattle.std.specs.Prelude.{◌≡◌, ◌+◌, ◌-◌, ◌^◌, ◌<◌, ◌≤◌, ◌++◌, false, IfOk, drop, length, slice_index};
ghost use Rattle.std.specs.List.{flat_map};
ghost use Rattle.image_layout.specs.Places.{below};
ghost use Rattle.image_layout.specs.Pointer.{pointer_word};
ghost use Rattle.image_layout.specs.Trees.{leaf_pairs};
ghost use Rattle.pm_model.specs.Plans.{part_actions, plan_of};
ghost use Rattle.shown_state.specs.Mending.{copy_part, fill_from, slots_by_key};
ghost use Rattle.shown_state.specs.Packed.{packed_word, packed_words};
ghost use Rattle.tree_cuts.specs.Lists.{Pairwise};
ghost use Rattle.tree_cuts.specs.Split.{sharing_parts};
ghost use Rattle.tree_cuts.specs.Tree.{KeysDiffer};
ghost use Rattle.fp_tree.specs.Halving.{key_prints, ordered_pairs, pair_stores};
ghost use Rattle.fp_tree.specs.Standing.{IsSoundLeaf};

use crate::reading::{FULL, LEAF_WORDS, first_words, key_place};
use fp_leaf::{PairList, greater_half, int_fingerprint, pairs};
use pm_model::{Action, Memory, NoMemory, PPtr, Place, Plan, new_leaf, split_leaf};
use std::alloc::Global;

/// Half of the slots of a leaf.
pub(crate) const HALF: u32 = 24;

// The words with fingerprints.
const PRINT_WORDS: u32 = 6;

// The stores of a copy: two for each pair, the fingerprints, the bitmap and the next pointer.
const COPY_STORES: u32 = 2 * HALF + PRINT_WORDS + 2;

/// No more actions than the sharing of a leaf has: the copy with a flush for each store and a fence, and four parts of
/// one store.
pub(crate) const SHARING_ACTIONS: u32 = 2 * COPY_STORES + 1 + 12;

/// The pairs of a full leaf in the order of their keys.
pub(crate) fn sorted_pairs<M: Memory>(
    alloc: Global,
    mem: &M,
    leaf: Place,
) -> Result<PairList, NoMemory>
    requires within { leaf.0 + 104 ≤ length (M.device mem.now).cached }
    requires full { slice_index (M.device mem.now).cached leaf.0 ≡ 2 ^ 48 - 1 }
    requires sound { IsSoundLeaf (M.device mem.now).cached leaf.0 }
    requires distinct { Pairwise KeysDiffer (leaf_pairs (M.device mem.now).cached leaf.0) }
    ensures { IfOk result (λ list. list.pairs ≡ ordered_pairs (M.device mem.now).cached leaf.0) }
{
    let mut list = pairs(alloc, &first_words(mem, leaf, LEAF_WORDS))?;
    list.sort();
    Ok(list)
}

/// Adds the parts by which the new leaf takes the greater half of a full leaf and stands behind it.
pub(crate) fn push_sharing<M: Memory>(
    plan: &mut Plan,
    mem: &M,
    column: Place,
    leaf: Place,
    new: Place,
    sorted: &PairList,
)
    requires column { column.0 + 40 ≤ 4194304 }
    requires leaf { leaf.0 + 104 ≤ length (M.device mem.now).cached }
    requires new { new.0 + 104 ≤ 4194304 }
    requires full { slice_index (M.device mem.now).cached leaf.0 ≡ 2 ^ 48 - 1 }
    requires sorted { sorted.now.pairs ≡ ordered_pairs (M.device mem.now).cached leaf.0 }
    requires room { 125 ≤ plan.old.spare }
    ensures { plan.new.left ≡ plan.old.left
        ++ plan_of (sharing_parts (M.device mem.now).cached column.0 (record { leaf = leaf.0; new = new.0 })) }
{
    push_copy(plan, mem, leaf, new, sorted);
    // From here on the greater half counts in the new leaf alone, which a reader finds by the column's split log.
    plan.push_store(leaf, FULL - greater_half(sorted));
    // From here on the new leaf stands behind the old one.
    plan.push_store(Place(leaf.0 + 1), PPtr::of(new).word());
    plan.push_store(new_leaf(column), 0);
    plan.push_store(split_leaf(column), 0);
}

// Adds the part that copies the greater half, and with it the next pointer.
fn push_copy<M: Memory>(plan: &mut Plan, mem: &M, leaf: Place, new: Place, sorted: &PairList)
    requires leaf { leaf.0 + 104 ≤ length (M.device mem.now).cached }
    requires new { new.0 + 104 ≤ 4194304 }
    requires full { slice_index (M.device mem.now).cached leaf.0 ≡ 2 ^ 48 - 1 }
    requires sorted { sorted.now.pairs ≡ ordered_pairs (M.device mem.now).cached leaf.0 }
    requires room { 113 ≤ plan.old.spare }
    ensures left { plan.new.left ≡ plan.old.left ++ part_actions (copy_part (M.device mem.now).cached false leaf.0 new.0
        (drop 24 (slots_by_key (M.device mem.now).cached false leaf.0))) }
    ensures spare { plan.old.spare ≤ plan.new.spare + 113 }
{
    push_pairs(plan, sorted, new);
    push_prints(plan, sorted, new);
    plan.push(Action::Store {
        place: new,
        value: (1 << HALF) - 1,
    });
    plan.push(Action::Store {
        place: Place(new.0 + 1),
        value: mem.load(Place(leaf.0 + 1)),
    });
    // The copy is fenced before the old leaf loses these pairs or points to it: else its block's old words would count.
    plan.end_part(COPY_STORES);
}

// Adds the stores of the 24 greatest pairs, in their order from slot 0 on.
fn push_pairs(plan: &mut Plan, sorted: &PairList, new: Place)
    requires full { length sorted.now.pairs ≡ 48 }
    requires new { new.0 + 104 ≤ 4194304 }
    requires room { 48 ≤ plan.old.spare }
    ensures left { plan.new.left ≡ plan.old.left
        ++ flat_map (pair_stores (drop 24 sorted.now.pairs) new.0) (below 24) }
    ensures spare { plan.new.spare + 48 ≡ plan.old.spare }
{
    for slot in 0..HALF {
        let pair = sorted.get(HALF + slot);
        let at = key_place(new, slot as u8);
        plan.push(Action::Store {
            place: at,
            value: pair.key,
        });
        plan.push(Action::Store {
            place: Place(at.0 + 1),
            value: u64::from(pair.code),
        });
    }
}

// Adds the stores of the words with the fingerprints of the 24 greatest pairs.
fn push_prints(plan: &mut Plan, sorted: &PairList, new: Place)
    requires full { length sorted.now.pairs ≡ 48 }
    requires new { new.0 + 104 ≤ 4194304 }
    requires room { 6 ≤ plan.old.spare }
    ensures left { plan.new.left ≡ plan.old.left
        ++ fill_from (new.0 + 2) (packed_words (key_prints (drop 24 sorted.now.pairs)) 6) }
    ensures spare { plan.new.spare + 6 ≡ plan.old.spare }
{
    for word in 0..PRINT_WORDS {
        plan.push(Action::Store {
            place: Place(new.0 + 2 + word),
            value: prints(sorted, word),
        });
    }
}

// A word of the fingerprints of the 24 greatest pairs, which is 0 behind the last of them.
fn prints(sorted: &PairList, word: u32) -> u64
    requires full { length sorted.now.pairs ≡ 48 }
    requires word { word < 6 }
    ensures { result ≡ packed_word (key_prints (drop 24 sorted.now.pairs)) word }
{
    let mut bytes = [0; 8];
    for byte in 0..8 {
        let place = 8 * word + byte;
        if place < HALF {
            bytes[byte as usize] = int_fingerprint(sorted.get(HALF + place).key);
        }
    }
    u64::from_le_bytes(bytes)
}
