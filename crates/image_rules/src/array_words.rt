// Where the words of arrays stand.
ghost use Rattle.std.specs.Prelude.{◌≡◌, ◌+◌, ◌%◌, ◌^◌, ◌<◌, ◌≤◌, IfSome, option_map, length};
ghost use Rattle.image_layout.specs.Arrays.{array_rule, chunk_words as words_of_chunk};
ghost use Rattle.image_layout.specs.Checks.{Keeps};
ghost use Rattle.image_rules.specs.ArrayWords.{word_place as word_place_of};
ghost use Rattle.image_rules.specs.Stamps.{chunk_place, stamp_of};

use crate::pointers::pointed_words;
use pm_model::{MAX_CHUNKS, Place, chunk_capacity, chunk_of, chunk_pointer, chunk_words};

/// Where a chunk of an array begins, if it is published.
pub(crate) fn published_chunk(words: &[u64], header: Place, chunk: u32) -> Option<u32>
    requires segments { length words.now % 32768 ≡ 0 }
    requires most { length words.now ≤ 4194304 }
    requires within { header.0 + 16 ≤ length words.now }
    requires rule { Keeps words.now (array_rule header.0) }
    requires chunk { chunk < 12 }
    ensures place { result ≡ chunk_place words.now header.0 chunk }
    ensures within { IfSome result (λ first. first + words_of_chunk chunk ≤ length words.now) }
{
    if u64::from(chunk) >= words[header.0 as usize] {
        return None;
    }
    let pointer = words[chunk_pointer(header, chunk).0 as usize];
    pointed_words(words, pointer, chunk_words(chunk))
}

/// The place of a word of a published chunk.
pub(crate) fn place_in_chunk(chunk: Option<u32>, offset: u32) -> Option<u32>
    requires { IfSome chunk (λ first. first + offset < 2 ^ 32) }
    ensures { result ≡ option_map (λ first. first + offset) chunk }
{
    match chunk {
        Some(first) => Some(first + offset),
        None => None,
    }
}

/// Where a word of an array stands, if it is published. It takes constant time.
pub(crate) fn word_place(words: &[u64], header: Place, index: u32) -> Option<u32>
    requires segments { length words.now % 32768 ≡ 0 }
    requires most { length words.now ≤ 4194304 }
    requires within { header.0 + 16 ≤ length words.now }
    requires rule { Keeps words.now (array_rule header.0) }
    ensures place { result ≡ word_place_of words.now header.0 index }
    ensures within { IfSome result (λ place. place < length words.now) }
{
    if index >= chunk_capacity(MAX_CHUNKS) {
        return None;
    }
    let chunk = chunk_of(index);
    let offset = index - chunk_capacity(chunk);
    place_in_chunk(published_chunk(words, header, chunk), offset)
}

/// The word at a place, and 0 where none is published.
pub(crate) fn word_or_zero(words: &[u64], at: Option<u32>) -> u64
    requires { IfSome at (λ place. place < length words.now) }
    ensures { result ≡ stamp_of words.now at }
{
    match at {
        Some(place) => words[place as usize],
        None => 0,
    }
}
