// The order of a text among the words of an image.
ghost use Rattle.std.specs.Prelude.{◌≡◌, ◌+◌, ◌/◌, ◌<◌, ◌≤◌, length};
ghost use Rattle.std.specs.Ordering.{is_gt, is_lt};
ghost use Rattle.image_layout.specs.Places.{packed_byte as byte_at};
ghost use Rattle.image_layout.specs.Trees.{text_at, text_below, text_length, text_words};

use crate::memory::Memory;
use image_layout::Place;
use std::cmp::Ordering;

// A byte of a text or a name that is packed from a place on.
fn packed_byte<M: Memory>(mem: &M, first: Place, byte: u32) -> u8
    requires { first.0 + byte / 8 < length (M.device mem.now).cached }
    ensures { result ≡ byte_at (M.device mem.now).cached first.0 byte }
{
    let word = mem.load(Place(first.0 + byte / 8));
    ((word >> (8 * (byte % 8))) % 256) as u8
}

/// The order of the text at a place against these bytes. It takes no memory.
pub fn compare_text<M: Memory>(mem: &M, at: Place, bytes: &[u8]) -> Ordering
    requires short { text_length (M.device mem.now).cached at.0 ≤ 2000 }
    requires within { at.0 + text_words (text_length (M.device mem.now).cached at.0)
        ≤ length (M.device mem.now).cached }
    ensures less { is_lt result ≡ text_below (text_at (M.device mem.now).cached at.0) bytes.now }
    ensures greater { is_gt result ≡ text_below bytes.now (text_at (M.device mem.now).cached at.0) }
{
    let length = mem.load(at) as usize;
    let both = length.min(bytes.len());
    for place in 0..both {
        let order = packed_byte(mem, Place(at.0 + 1), place as u32).cmp(&bytes[place]);
        if order.is_ne() {
            return order;
        }
    }
    length.cmp(&bytes.len())
}
