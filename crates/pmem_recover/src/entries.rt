// The entries of a transaction object: those that stand in it, and those of its ready segments.
ghost use Rattle.std.specs.Prelude.{◌≡◌, ◌+◌, ◌*◌, ◌<◌, ◌≤◌, ◌++◌, [], ◌∷◌, IfOk, filter, length, map, vec_len};
ghost use Rattle.image_layout.specs.Fixed.{entry_at};
ghost use Rattle.image_layout.specs.Places.{below};
ghost use Rattle.image_layout.specs.Records.{segment_entry_at};
ghost use Rattle.image_layout.specs.Objects.{entry_places};
ghost use Rattle.image_layout.specs.Checks.{Keeps};
ghost use Rattle.image_layout.specs.EntryRules.{objects_rule};
ghost use Rattle.pmem_recover.specs.Filled.{is_filled, places_of};

use pm_model::{
    Memory, NoMemory, OBJECT_ENTRIES, Place, SEGMENT_ENTRIES, entry_word, named_place,
    ready_segments, segment_entry, segment_pointer,
};
use std::alloc::Global;

/// The places of an object's entries, the entry words that aren't 0, in the order in which they are filled. Time and
/// memory as for its entry words, at most 8,220.
pub(crate) fn filled_entries<M: Memory>(
    alloc: Global,
    mem: &M,
    object: u8,
) -> Result<Vec<Place>, NoMemory>
    requires rules { Keeps (M.device mem.now).cached objects_rule }
    requires object { object < 16 }
    ensures places { IfOk result (λ filled.
        places_of filled.items ≡ filter (is_filled (M.device mem.now).cached)
        (entry_places (M.device mem.now).cached object)) }
    ensures few { IfOk result (λ filled. length filled.items ≤ 8220) }
{
    let mut filled = Vec::new(alloc);
    push_own(mem, object, &mut filled)?;
    let mut pointer = segment_pointer(object);
    for _ in 0..mem.load(ready_segments(object)) {
        let segment = named_place(mem, pointer);
        push_segment(mem, segment, &mut filled)?;
        pointer = segment;
    }
    Ok(filled)
}

// Adds the places of the entries that stand in the object itself.
fn push_own<M: Memory>(mem: &M, object: u8, filled: &mut Vec<Place>) -> Result<(), NoMemory>
    requires { object < 16 }
    ensures places { IfOk result (λ _.
        places_of filled.new.items ≡ places_of filled.old.items
        ++ filter (is_filled (M.device mem.now).cached) (map (entry_at object) (below 60))) }
    ensures few { IfOk result (λ _. vec_len filled.new ≤ vec_len filled.old + 60) }
{
    for entry in 0..OBJECT_ENTRIES {
        push_filled(mem, entry_word(object, entry), filled)?;
    }
    Ok(())
}

// Adds the places of the entries of a segment.
fn push_segment<M: Memory>(mem: &M, segment: Place, filled: &mut Vec<Place>) -> Result<(), NoMemory>
    requires { segment.0 + 256 ≤ length (M.device mem.now).cached }
    ensures places { IfOk result (λ _.
        places_of filled.new.items ≡ places_of filled.old.items
        ++ filter (is_filled (M.device mem.now).cached) (map (segment_entry_at segment.0) (below 255))) }
    ensures few { IfOk result (λ _. vec_len filled.new ≤ vec_len filled.old + 255) }
{
    for entry in 0..SEGMENT_ENTRIES {
        push_filled(mem, segment_entry(segment, entry), filled)?;
    }
    Ok(())
}

// Adds a place, where its word isn't 0.
fn push_filled<M: Memory>(mem: &M, at: Place, filled: &mut Vec<Place>) -> Result<(), NoMemory>
    requires { at.0 < length (M.device mem.now).cached }
    ensures places { IfOk result (λ _.
        places_of filled.new.items ≡ places_of filled.old.items
        ++ filter (is_filled (M.device mem.now).cached) (at.0 ∷ [])) }
    ensures few { IfOk result (λ _. vec_len filled.new ≤ vec_len filled.old + 1) }
{
    if mem.load(at) != 0 {
        filled.push(at)?;
    }
    Ok(())
}
