ghost use Rattle.std.specs.Prelude.{◌≡◌, ◌+◌, ◌*◌, ◌<◌};
ghost use Rattle.image_layout.specs.Blocks.{slot_at, slot_words, slots_of};

use heap_small::{Class, class_words};
use pm_model::{FIRST_SLOT, PAGE_WORDS, Place};

/// A block of the heap: the place of its first word, and how many words it has.
#[derive(Clone, Copy, Debug, PartialEq, Eq)]
pub struct Block {
    pub first: Place,
    pub words: u32,
}

/// The block of a slot of a small page.
pub(crate) fn slot_block(page: u16, class: Class, slot: u8) -> Block
    requires page { page < 8192 }
    requires slot { slot < slots_of class }
    ensures first { result.first.0 ≡ slot_at page class slot }
    ensures within { result.first.0 < 512 * page + 512 }
    ensures words { result.words ≡ slot_words class }
{
    let words = class_words(class);
    Block {
        first: Place(PAGE_WORDS * u32::from(page) + FIRST_SLOT + u32::from(slot) * words),
        words,
    }
}
