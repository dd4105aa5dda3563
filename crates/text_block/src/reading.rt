// Texts as they are read from their blocks.
ghost use Rattle.std.specs.Prelude.{◌≡◌, ◌+◌, ◌≤◌, ◌/◌, ◌<◌, IfOk, length};
ghost use Rattle.std.specs.Ordering.{is_gt, is_lt};
ghost use Rattle.image_layout.specs.Places.{packed_byte as byte_at};
ghost use Rattle.image_layout.specs.Trees.{text_at, text_below};
ghost use Rattle.text_block.specs.Blocks.{IsPlacedText, IsTextBlock};

use mv_model::Text;
use pm_model::{Memory, NoMemory, Place, compare_text};
use std::alloc::Global;
use std::cmp::Ordering;

/// The text whose block stands at a place. The one error is want of memory.
pub fn read<M: Memory>(alloc: Global, mem: &M, at: Place) -> Result<Text, NoMemory>
    requires { IsTextBlock (M.device mem.now).cached at.0 }
    ensures { IfOk result (λ text. text ≡ text_at (M.device mem.now).cached at.0) }
{
    let bytes = read_bytes(alloc, mem, at)?;
    Text::of(alloc, &bytes)
}

/// The bytes of the text whose block stands at a place. The one error is want of memory.
pub fn read_bytes<M: Memory>(alloc: Global, mem: &M, at: Place) -> Result<Vec<u8>, NoMemory>
    requires { IsPlacedText (M.device mem.now).cached at.0 }
    ensures { IfOk result (λ bytes. bytes.items ≡ text_at (M.device mem.now).cached at.0) }
{
    let length = mem.load(at) as u32;
    let mut bytes = Vec::with_capacity(alloc, length as usize)?;
    for byte in 0..length {
        bytes.push_reserved(packed_byte(mem, Place(at.0 + 1), byte));
    }
    Ok(bytes)
}

// A byte of those that are packed from a place on.
fn packed_byte<M: Memory>(mem: &M, first: Place, byte: u32) -> u8
    requires { first.0 + byte / 8 < length (M.device mem.now).cached }
    ensures { result ≡ byte_at (M.device mem.now).cached first.0 byte }
{
    let word = mem.load(Place(first.0 + byte / 8));
    ((word >> (8 * (byte % 8))) % 256) as u8
}

/// The order of the text whose block stands at a place against another one, byte by byte; a proper prefix comes first.
/// It takes no memory.
pub fn compare<M: Memory>(mem: &M, at: Place, text: &Text) -> Ordering
    requires { IsPlacedText (M.device mem.now).cached at.0 }
    ensures less { is_lt result ≡ text_below (text_at (M.device mem.now).cached at.0) text.now }
    ensures greater { is_gt result ≡ text_below text.now (text_at (M.device mem.now).cached at.0) }
{
    compare_text(mem, at, text.as_str().as_bytes())
}
