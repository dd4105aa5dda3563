// The keys of a leaf: their order and their fingerprints, in a column of integers or of texts.
ghost use Rattle.std.specs.Prelude.{◌≡◌, ◌+◌, ◌<◌, ◌≤◌, true, IfOk, slice_index};
ghost use Rattle.image_layout.specs.Places.{place_in};
ghost use Rattle.image_layout.specs.Records.{key_at};
ghost use Rattle.image_layout.specs.Trees.{key_below, key_fingerprint, text_at};
ghost use Rattle.leaf_halves.specs.Keys.{IsKeyAt};

use fp_leaf::{int_fingerprint, text_fingerprint};
use pm_model::{Memory, NoMemory, Place, compare_text, named_place};
use std::alloc::Global;
use text_block::read_bytes;

/// The place of the key word of a leaf's slot.
pub fn key_place(leaf: Place, slot: u8) -> Place
    requires leaf { leaf.0 + 128 ≤ 4194304 }
    requires slot { slot < 48 }
    ensures { result.0 ≡ key_at leaf.0 slot }
{
    Place(leaf.0 + 8 + 2 * u32::from(slot))
}

/// Whether the key at a place is below that at another, in a column of texts or of integers.
pub(crate) fn is_key_below<M: Memory>(
    alloc: Global,
    mem: &M,
    texts: bool,
    at: Place,
    other: Place,
) -> Result<bool, NoMemory>
    requires key { IsKeyAt (M.device mem.now).cached texts at.0 }
    requires other { IsKeyAt (M.device mem.now).cached texts other.0 }
    ensures { IfOk result (λ below. below ≡ key_below (M.device mem.now).cached texts
        (slice_index (M.device mem.now).cached at.0) (slice_index (M.device mem.now).cached other.0)) }
{
    if !texts {
        return Ok(mem.load(at) < mem.load(other));
    }
    let bytes = read_text(alloc, mem, other)?;
    Ok(compare_text(mem, named_place(mem, at), &bytes).is_lt())
}

/// The fingerprint of the key at a place.
pub(crate) fn key_print<M: Memory>(
    alloc: Global,
    mem: &M,
    texts: bool,
    at: Place,
) -> Result<u8, NoMemory>
    requires { IsKeyAt (M.device mem.now).cached texts at.0 }
    ensures { IfOk result (λ print. print ≡ key_fingerprint (M.device mem.now).cached texts
        (slice_index (M.device mem.now).cached at.0)) }
{
    if !texts {
        return Ok(int_fingerprint(mem.load(at)));
    }
    let bytes = read_text(alloc, mem, at)?;
    Ok(text_fingerprint(&bytes))
}

// The bytes of the text that the key at a place names.
fn read_text<M: Memory>(alloc: Global, mem: &M, at: Place) -> Result<Vec<u8>, NoMemory>
    requires { IsKeyAt (M.device mem.now).cached true at.0 }
    ensures { IfOk result (λ bytes. bytes.items ≡ text_at (M.device mem.now).cached
        (place_in (slice_index (M.device mem.now).cached at.0))) }
{
    read_bytes(alloc, mem, named_place(mem, at))
}
