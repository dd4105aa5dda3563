// The rules of descriptors and bitmaps, each in one pass over the pages.
ghost use Rattle.std.specs.Prelude.{◌≡◌, ◌+◌, ◌*◌, ◌/◌, ◌%◌, ◌<◌, ◌≤◌, ◌==◌, ◌-◌, ◌^◌, nat_lt, IsTrue, if◌then◌else◌, length, slice_index};
ghost use Rattle.image_layout.specs.Fixed.{descriptor_at};
ghost use Rattle.image_layout.specs.Blocks.{inside_after, slots_of, is_reserved as reserved_page, says_small as small_descriptor, is_inside as page_is_inside, is_small_page as page_is_small};
ghost use Rattle.image_layout.specs.Checks.{first_failing};
ghost use Rattle.image_layout.specs.HeapRules.{reserved_rule, descriptor_rule, bitmap_rule, is_descriptor as known_descriptor};

use crate::layout::{BIG_HEAD, FIXED_PAGES, LAST_BIG_HEAD, LAST_SMALL_PAGE, SMALL_PAGE};
use heap_small::{Class, slots};
use pm_model::{PAGE_WORDS, Page, RESERVED, SEGMENT_PAGES, descriptor};

/// The first reserved page whose descriptor says otherwise: its descriptor's place.
pub fn reserved_fault(words: &[u64]) -> Option<u32>
    requires { length words.now ≤ 4194304 }
    ensures { result ≡ first_failing (reserved_rule words.now) }
{
    for page in 0..page_count(words) {
        let place = descriptor_place(page);
        if is_reserved(page) && words[place as usize] != RESERVED {
            return Some(place);
        }
    }
    None
}

/// The first other page, not inside a big block, whose descriptor is none: its descriptor's place.
pub fn descriptor_fault(words: &[u64]) -> Option<u32>
    requires { length words.now ≤ 4194304 }
    ensures { result ≡ first_failing (descriptor_rule words.now) }
{
    let mut inside = 0;
    for page in 0..page_count(words) {
        let place = descriptor_place(page);
        let word = words[place as usize];
        if inside == 0 && !is_reserved(page) && !is_descriptor(page, word) {
            return Some(place);
        }
        inside = left_behind(inside, page, word);
    }
    None
}

/// The first small page whose bitmap has a bit at or above its slots: its bitmap's place.
pub fn bitmap_fault(words: &[u64]) -> Option<u32>
    requires { length words.now ≤ 4194304 }
    ensures { result ≡ first_failing (bitmap_rule words.now) }
{
    let mut inside = 0;
    for page in 0..page_count(words) {
        let word = words[descriptor_place(page) as usize];
        let bitmap = PAGE_WORDS * page;
        if inside == 0 && says_small(word) && !fits_class(words[bitmap as usize], word) {
            return Some(bitmap);
        }
        inside = left_behind(inside, page, word);
    }
    None
}

/// Whether a page is a small page. It reads the descriptors of its segment up to its own.
pub fn is_small_page(words: &[u64], page: u32) -> bool
    requires in_image { 512 * page < length words.now }
    requires most { length words.now ≤ 4194304 }
    ensures { result ≡ page_is_small words.now page }
{
    !is_inside(words, page) && says_small(words[descriptor_place(page) as usize])
}

/// Whether a page is never given out: the first of a segment, or one of the first four of the image.
pub(crate) fn is_reserved(page: u32) -> bool
    ensures { result ≡ reserved_page page }
{
    page % SEGMENT_PAGES == 0 || page < FIXED_PAGES
}

/// The place of a page's descriptor.
pub(crate) fn descriptor_place(page: u32) -> u32
    requires { page < 8192 }
    ensures { result ≡ descriptor_at page }
{
    descriptor(Page(page as u16)).0
}

/// How many pages an image has.
pub(crate) fn page_count(words: &[u64]) -> u32
    requires { length words.now ≤ 4194304 }
    ensures { result ≡ length words.now / 512 }
{
    (words.len() / PAGE_WORDS as usize) as u32
}

/// Whether a page stands inside a big block, behind its head. It reads the descriptors of its segment before it.
pub(crate) fn is_inside(words: &[u64], page: u32) -> bool
    requires in_image { 512 * page < length words.now }
    requires most { length words.now ≤ 4194304 }
    ensures { result ≡ page_is_inside words.now page }
{
    let first = page / SEGMENT_PAGES * SEGMENT_PAGES;
    let mut inside = 0;
    for before in first..page {
        inside = left_behind(inside, before, words[descriptor_place(before) as usize]);
    }
    inside > 0
}

/// How many pages of a big block are left behind a page, by how many are left from it on if it is inside one. Where its
/// segment ends, so does the block.
pub(crate) fn left_behind(inside: u64, page: u32, descriptor: u64) -> u64
    ensures { result ≡ (if (page + 1) % 64 == 0 then 0 else inside_after inside descriptor) }
{
    if page % SEGMENT_PAGES == SEGMENT_PAGES - 1 {
        0
    } else if inside == 0 {
        descriptor.saturating_sub(BIG_HEAD + 1)
    } else {
        inside - 1
    }
}

/// Whether a descriptor is that of a small page.
pub(crate) fn says_small(descriptor: u64) -> bool
    ensures { result ≡ small_descriptor descriptor }
{
    SMALL_PAGE <= descriptor && descriptor <= LAST_SMALL_PAGE
}

// Whether a descriptor is that of a free page, of a small page, or of a big block that ends in its segment.
fn is_descriptor(page: u32, descriptor: u64) -> bool
    ensures { result ≡ known_descriptor page descriptor }
{
    descriptor <= LAST_SMALL_PAGE
        || (BIG_HEAD < descriptor
            && descriptor <= LAST_BIG_HEAD
            && u64::from(page % SEGMENT_PAGES) + (descriptor - BIG_HEAD)
                <= u64::from(SEGMENT_PAGES))
}

// Whether a bitmap has no bit at or above the slots of the class that a small page's descriptor says.
fn fits_class(bitmap: u64, descriptor: u64) -> bool
    requires small { IsTrue (small_descriptor descriptor) }
    ensures { result ≡ nat_lt bitmap (2 ^ slots_of (descriptor - 2)) }
{
    bitmap < 1 << slots(Class::new((descriptor - SMALL_PAGE) as u8))
}
