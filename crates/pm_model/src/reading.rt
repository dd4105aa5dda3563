// What the words of a memory name.
ghost use Rattle.std.specs.Prelude.{◌≡◌, ◌<◌, IsTrue, length, slice_index};
ghost use Rattle.image_layout.specs.Places.{is_pointer, place_in};

use crate::memory::Memory;
use image_layout::{PPtr, Place};

/// The place that the pointer at a place names.
pub fn named_place<M: Memory>(mem: &M, at: Place) -> Place
    requires at { at.0 < length (M.device mem.now).cached }
    requires pointer { IsTrue (is_pointer (M.device mem.now).cached (slice_index (M.device mem.now).cached at.0)) }
    ensures place { result.0 ≡ place_in (slice_index (M.device mem.now).cached at.0) }
    ensures in_image { result.0 < length (M.device mem.now).cached }
{
    let pointer = PPtr::try_read(mem.load(at), mem.len()).unwrap();
    pointer.place().unwrap()
}
