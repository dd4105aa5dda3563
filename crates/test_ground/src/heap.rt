// A heap on a formatted image.
ghost use Rattle.std.specs.Prelude.{◌≡◌, ◌≤◌, IfOk};
ghost use Rattle.image_layout.specs.Fresh.{fresh_words};
ghost use Rattle.pm_model.specs.Plain.{device_of};
ghost use Rattle.pm_model.specs.Plans.{at_rest};
ghost use Rattle.heap_palloc.specs.Calls.{IsSettled};

use crate::images::formatted_memory;
use heap_palloc::{Heap, reopen};
use pm_model::{NoMemory, Plain};
use std::alloc::Global;

/// A memory at rest with the words of a formatted image of so many segments, and its heap.
pub fn formatted_heap(alloc: Global, segments: u32) -> Result<(Plain, Heap), NoMemory>
    requires one_or_more { 1 ≤ segments }
    requires most { segments ≤ 128 }
    ensures words { IfOk result (λ made. device_of made.0 ≡ at_rest (fresh_words segments)) }
    ensures settled { IfOk result (λ made. IsSettled (device_of made.0) made.1) }
{
    let memory = formatted_memory(alloc, segments)?;
    let heap = reopen(alloc, &memory)?;
    Ok((memory, heap))
}
