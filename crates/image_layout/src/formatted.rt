// The words of a formatted image.
ghost use Rattle.std.specs.Prelude.{◌≡◌, ℕ, ◌*◌, ◌%◌, ◌<◌, ◌≤◌, ◌==◌, ◌&&◌, nat_lt, if◌then◌else◌, IfOk, length, slice_index};
ghost use Rattle.image_layout.specs.Fresh.{fresh_word, fresh_words};

use crate::error::NoMemory;
use crate::fixed::{magic, version};
use crate::layout::{MAGIC, RESERVED, SEGMENT_WORDS, VERSION};
use std::alloc::Global;

/// The words of a formatted image of so many segments.
pub fn fresh(alloc: Global, segments: u32) -> Result<Vec<u64>, NoMemory>
    requires one_or_more { 1 ≤ segments }
    requires most { segments ≤ 128 }
    ensures words { IfOk result (λ words. words.items ≡ fresh_words segments) }
    ensures size { IfOk result (λ words. length words.items ≡ 32768 * segments) }
{
    let count = (segments * SEGMENT_WORDS) as usize;
    let mut words = vec![in alloc; 0; count]?;
    format_words(&mut words, segments);
    Ok(words)
}

// Makes words that are 0 those of a formatted image.
fn format_words(words: &mut [u64], segments: u32)
    requires one_or_more { 1 ≤ segments }
    requires most { segments ≤ 128 }
    requires count { length words.old ≡ 32768 * segments }
    requires zero { (w : ℕ) → slice_index words.old w ≡ 0 }
    ensures { (w : ℕ) → w < length words.old → slice_index words.new w ≡ fresh_word w }
{
    reserve_first_pages(words, segments);
    reserve_fixed_pages(words);
    words[magic().0 as usize] = MAGIC;
    words[version().0 as usize] = VERSION;
}

// Reserves the first page of each segment, which has the descriptors.
fn reserve_first_pages(words: &mut [u64], segments: u32)
    requires segments { segments ≤ 128 }
    requires words { 32768 * segments ≤ length words.old }
    ensures { (w : ℕ) → slice_index words.new w
        ≡ (if w % 32768 == 0 && nat_lt w (32768 * segments) then 8 else slice_index words.old w) }
{
    for segment in 0..segments {
        words[(segment * SEGMENT_WORDS) as usize] = RESERVED;
    }
}

// Reserves the first segment's pages with the fixed places.
fn reserve_fixed_pages(words: &mut [u64])
    requires { 4 ≤ length words.old }
    ensures { (w : ℕ) → slice_index words.new w ≡ (if nat_lt w 4 then 8 else slice_index words.old w) }
{
    for page in 0..4 {
        words[page] = RESERVED;
    }
}
