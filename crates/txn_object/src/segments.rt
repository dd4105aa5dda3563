// Where the entries of a transaction object stand: 60 in the object, and then 255 in each of its ready segments.
ghost use Rattle.std.specs.Prelude.{◌≡◌, ◌+◌, ◌<◌, ◌≤◌, IsTrue, length, slice_index};
ghost use Rattle.image_layout.specs.Checks.{Keeps};
ghost use Rattle.image_layout.specs.EntryRules.{object_rule};
ghost use Rattle.image_layout.specs.Objects.{entry_places, ready_count, segment_pointer_at};
ghost use Rattle.image_layout.specs.Places.{is_pointer, place_in};
ghost use Rattle.txn_object.specs.Object.{own_object, nth_place};

use pm_model::{
    Memory, OBJECT_ENTRIES, Place, SEGMENT_ENTRIES, entry_word, named_place, ready_segments,
    segment_entry, segment_pointer,
};

/// The entries that stand in an object, and in each of its segments.
pub(crate) const OWN_ENTRIES: u32 = OBJECT_ENTRIES as u32;

pub(crate) const MORE_ENTRIES: u32 = SEGMENT_ENTRIES as u32;

/// The transaction object of a session, of which the first is session 1.
pub fn object_of(session: u8) -> u8
    requires { 1 ≤ session }
    ensures { result ≡ own_object session }
{
    session - 1
}

/// How many segments an object has ready.
pub(crate) fn ready<M: Memory>(mem: &M, object: u8) -> u32
    requires object { object < 16 }
    requires rule { Keeps (M.device mem.now).cached (object_rule object) }
    ensures count { result ≡ ready_count (M.device mem.now).cached object }
    ensures most { result ≤ 32 }
{
    mem.load(ready_segments(object)) as u32
}

/// The place of the pointer to a segment by its number: to one of the ready ones, or to the one after them.
pub(crate) fn pointer_to<M: Memory>(mem: &M, object: u8, segment: u32) -> Place
    requires object { object < 16 }
    requires rule { Keeps (M.device mem.now).cached (object_rule object) }
    requires segment { segment ≤ ready_count (M.device mem.now).cached object }
    ensures place { result.0 ≡ segment_pointer_at (M.device mem.now).cached object segment }
    ensures in_image { result.0 < length (M.device mem.now).cached }
{
    let mut pointer = segment_pointer(object);
    for passed in 0..segment {
        pointer = named_place(mem, pointer);
    }
    pointer
}

/// The place of an entry of an object.
pub(crate) fn entry_place<M: Memory>(mem: &M, object: u8, nth: u32) -> Place
    requires object { object < 16 }
    requires rule { 60 ≤ nth → Keeps (M.device mem.now).cached (object_rule object) }
    requires there { nth < length (entry_places (M.device mem.now).cached object) }
    ensures { result.0 ≡ nth_place (M.device mem.now).cached object nth }
{
    if nth < OWN_ENTRIES {
        return entry_word(object, nth as u8);
    }
    let more = nth - OWN_ENTRIES;
    let segment = named_place(mem, pointer_to(mem, object, more / MORE_ENTRIES));
    segment_entry(segment, (more % MORE_ENTRIES) as u8)
}
