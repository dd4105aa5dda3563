// What a word of an image points to.
ghost use Rattle.std.specs.Prelude.{◌≡◌, ◌+◌, ◌%◌, ◌<◌, ◌≤◌, ◌↔◌, false, IsNone, IfSome, length};
ghost use Rattle.image_layout.specs.Places.{place_in, is_pointer, is_pointer_to, is_null_or_pointer_to};
ghost use Rattle.image_layout.specs.Blocks.{is_slot as place_is_slot, is_block_pointer as word_is_block_pointer};

use crate::heap_rules::{descriptor_place, is_reserved, is_small_page};
use crate::layout::{FIRST_SLOT, SMALL_PAGE};
use heap_small::{Class, class_words, slots};
use pm_model::{PAGE_WORDS, PPtr, SEGMENT_WORDS};

/// The place of the image that a word points to. None where the word is null or no pointer.
pub fn pointed_place(words: &[u64], word: u64) -> Option<u32>
    requires { length words.now ≤ 4194304 }
    ensures none { IsNone result ↔ (is_pointer words.now word ≡ false) }
    ensures place { IfSome result (λ place. place ≡ place_in word) }
    ensures within { IfSome result (λ place. place < length words.now) }
{
    let pointer = PPtr::try_read(word, words.len() as u32)?;
    Some(pointer.place()?.0)
}

/// The place where so many words begin to which a word points. None where the word is null or no pointer, or where they
/// don't lie in one segment.
pub fn pointed_words(words: &[u64], word: u64, count: u32) -> Option<u32>
    requires segments { length words.now % 32768 ≡ 0 }
    requires most { length words.now ≤ 4194304 }
    requires count { count ≤ 32768 }
    ensures none { IsNone result ↔ (is_pointer_to words.now count word ≡ false) }
    ensures place { IfSome result (λ place. place ≡ place_in word) }
    ensures within { IfSome result (λ place. place + count ≤ length words.now) }
{
    match pointed_place(words, word) {
        Some(place) if place % SEGMENT_WORDS + count <= SEGMENT_WORDS => Some(place),
        _ => None,
    }
}

/// Whether a word is null, or points to so many words of one segment.
pub fn is_null_or_words(words: &[u64], word: u64, count: u32) -> bool
    requires segments { length words.now % 32768 ≡ 0 }
    requires most { length words.now ≤ 4194304 }
    requires count { count ≤ 32768 }
    ensures { result ≡ is_null_or_pointer_to words.now count word }
{
    word == 0 || pointed_words(words, word, count).is_some()
}

/// Whether a word points to a slot of a small page, or to the first word of a page that isn't reserved.
pub fn is_block_pointer(words: &[u64], word: u64) -> bool
    requires { length words.now ≤ 4194304 }
    ensures { result ≡ word_is_block_pointer words.now word }
{
    match pointed_place(words, word) {
        Some(place) => {
            !is_reserved(place / PAGE_WORDS) && (place % PAGE_WORDS == 0 || is_slot(words, place))
        }
        None => false,
    }
}

fn is_slot(words: &[u64], place: u32) -> bool
    requires in_image { place < length words.now }
    requires most { length words.now ≤ 4194304 }
    ensures { result ≡ place_is_slot words.now place }
{
    let page = place / PAGE_WORDS;
    if !is_small_page(words, page) {
        return false;
    }
    let class = Class::new((words[descriptor_place(page) as usize] - SMALL_PAGE) as u8);
    let slot = (place % PAGE_WORDS).saturating_sub(FIRST_SLOT) / class_words(class);
    slot < slots(class) && PAGE_WORDS * page + FIRST_SLOT + slot * class_words(class) == place
}
