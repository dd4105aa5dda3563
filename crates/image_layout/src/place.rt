// Where a word stands, and the persistent pointer that names it in one word.
ghost use Rattle.std.specs.Prelude.{◌≡◌, ◌⊎◌, ℕ, ◌+◌, ◌*◌, ◌/◌, ◌%◌, ◌^◌, ◌<◌, ◌≤◌, ◌↔◌, IsNone, IsSome, IfSome};
ghost use Rattle.image_layout.specs.Pointer.{pointer_word, IsPointerBelow};

use crate::layout::SEGMENT_WORDS;
use std::marker::Model;

// A pointer's upper half is one more than its segment, so that no pointer is 0. Its lower half is the offset there.
const SEGMENT_UNIT: u64 = 1 << 32;

// Offsets are below this.
const OFFSETS: u64 = SEGMENT_WORDS as u64;

/// The number of a word in the image. Its line is its number / 8, and its page its number / 512.
#[derive(Clone, Copy, Debug, PartialEq, Eq, PartialOrd, Ord)]
pub struct Place(pub u32);

/// The number of a page of 512 words.
#[derive(Clone, Copy, Debug, PartialEq, Eq, PartialOrd, Ord)]
pub struct Page(pub u16);

/// A persistent pointer: one word, 0 for null. A clause sees the word.
#[derive(Clone, Copy, Debug, PartialEq, Eq)]
pub struct PPtr {
    word: u64,
}

impl Model for PPtr {
    ghost use Rattle.std.specs.Prelude.{ℕ};
    ghost use Rattle.image_layout.specs.Pointer.{IsPointerWord};

    ghost Value = { ℕ };

    ghost view = { λ p. p.word };

    ghost invariant = { λ p. IsPointerWord p.word };

    ghost inverse = { λ n. record { word = n } };
}

impl PPtr {
    /// The pointer that names no word.
    pub fn null() -> PPtr
        ensures { result ≡ 0 }
    {
        PPtr { word: 0 }
    }

    /// The pointer to a word.
    pub fn of(at: Place) -> PPtr
        requires { at.0 < 4194304 }
        ensures { result ≡ pointer_word at.0 }
    {
        let segment = u64::from(at.0 / SEGMENT_WORDS);
        let offset = u64::from(at.0 % SEGMENT_WORDS);
        PPtr {
            word: (segment + 1) * SEGMENT_UNIT + offset,
        }
    }

    /// The word in which it is stored.
    pub fn word(self) -> u64
        ensures { result ≡ self }
    {
        self.word
    }

    /// The word that it names, `None` for null.
    pub fn place(self) -> Option<Place>
        ensures null { IsNone result ↔ (self ≡ 0) }
        ensures named { IfSome result (λ at. self ≡ pointer_word at.0) }
    {
        if self.word == 0 {
            None
        } else {
            let segment = self.word / SEGMENT_UNIT - 1;
            let offset = self.word % SEGMENT_UNIT;
            Some(Place((segment * OFFSETS + offset) as u32))
        }
    }

    /// The pointer that a stored word is: null, or the pointer to a place below `words`. `None` for any other word.
    pub fn try_read(word: u64, words: u32) -> Option<PPtr>
        ensures pointer { IsSome result ↔ IsPointerBelow words word }
        ensures same { IfSome result (λ pointer. pointer ≡ word) }
    {
        if word == 0 {
            return Some(PPtr { word });
        }
        let segment = word / SEGMENT_UNIT;
        let offset = word % SEGMENT_UNIT;
        if segment == 0 || offset >= OFFSETS {
            return None;
        }
        let place = (segment - 1) * OFFSETS + offset;
        if place < u64::from(words) {
            Some(PPtr { word })
        } else {
            None
        }
    }
}
