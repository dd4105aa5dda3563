// How many words an array has, and where they stand.
ghost use Rattle.std.specs.Prelude.{◌≡◌, ◌+◌, ◌<◌, ◌≤◌, length};
ghost use Rattle.image_layout.specs.Checks.{Keeps};
ghost use Rattle.image_layout.specs.Arrays as arrays;
ghost use Rattle.image_layout.specs.Arrays.{array_rule, capacity_of};

use pm_model::{Memory, Place, chunk_capacity, chunk_of, chunk_pointer, named_place};

/// How many words an array of so many chunks has.
pub fn capacity(chunks: u32) -> u32
    requires { chunks ≤ 12 }
    ensures { result ≡ capacity_of chunks }
{
    chunk_capacity(chunks)
}

/// The place of a published word of the array with this header.
pub fn place_of<M: Memory>(mem: &M, header: Place, index: u32) -> Place
    requires header { header.0 + 16 ≤ length (M.device mem.now).cached }
    requires rule { Keeps (M.device mem.now).cached (array_rule header.0) }
    requires published { index < arrays.capacity (M.device mem.now).cached header.0 }
    ensures place { result.0 ≡ arrays.place_of (M.device mem.now).cached header.0 index }
    ensures in_image { result.0 < length (M.device mem.now).cached }
{
    let chunk = chunk_of(index);
    let first = named_place(mem, chunk_pointer(header, chunk));
    Place(first.0 + (index - chunk_capacity(chunk)))
}
