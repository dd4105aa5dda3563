//! Reading an image from the bytes of a file.

ghost use Rattle.std.specs.Prelude.{◌≡◌, ◌<◌, ◌≤◌, ◌+◌, ◌-◌, ◌*◌, ◌^◌, ◌++◌, ℕ, List, length, replicate, vec_len, All, Some, IfOk, OnOk, IsErrOf};
ghost use Rattle.pm_image.specs.Spelling.{IsImage, pages_spelling, spelling, stored};
ghost use Rattle.pm_image.specs.Fault.{Answers, HasHeader, Reads, first_fault, items_fault, words_in};

use crate::error::ImageError;
use crate::layout::{
    HEADER_BYTES, ITEM_BYTES, MAGIC, MOST_SEGMENTS, PAGE_WORDS, PAGES_AT, SEGMENT_PAGES,
    SEGMENTS_AT, VERSION, VERSION_AT, is_blank,
};
use byteorder::{ByteOrder, LittleEndian};
use std::alloc::{AllocError, Global};

// Fills the words from the first bytes.
fn read_words(bytes: &[u8], words: &mut [u64])
    requires { 8 * length words.old ≤ length bytes.now }
    ensures { words.new ≡ words_in (length words.old) bytes.now }
{
    let end = 8 * words.len();
    LittleEndian::read_u64_into(&bytes[..end], words);
}

// Appends the words that the first bytes spell.
fn push_words(words: &mut Vec<u64>, count: usize, bytes: &[u8]) -> Result<(), AllocError>
    requires whole { 8 * count ≤ length bytes.now }
    requires room { vec_len words.old + count < 2 ^ 64 }
    ensures { OnOk result (words.new.items ≡ words.old.items ++ words_in count bytes.now) }
{
    let start = words.len();
    words.resize(start + count, 0)?;
    read_words(bytes, &mut words[start..]);
    Ok(())
}

// Appends zeros up to a length.
fn push_zeros(words: &mut Vec<u64>, len: usize) -> Result<(), AllocError>
    requires { length words.old.items ≤ len }
    ensures items { OnOk result (words.new.items
        ≡ words.old.items ++ replicate (len - length words.old.items) 0) }
    ensures each { OnOk result (All (λ word. word < 2 ^ 64) words.new.items) }
{
    words.resize(len, 0)?;
    Ok(())
}

// Appends the first page that the bytes spell in its place, with pages of zeros before it.
fn push_page(words: &mut Vec<u64>, page: u32, bytes: &[u8]) -> Result<(), AllocError>
    requires place { length words.old.items ≤ 512 * page }
    requires whole { 4096 ≤ length bytes.now }
    ensures { OnOk result (words.new.items
        ≡ words.old.items ++ replicate (512 * page - length words.old.items) 0
        ++ words_in 512 bytes.now) }
{
    push_zeros(words, PAGE_WORDS * page as usize)?;
    push_words(words, PAGE_WORDS, bytes)
}

// The words of the pages that the items have, and zeros in place of the others.
fn read_pages(
    alloc: Global,
    segments: u32,
    count: u32,
    items: &[u8],
) -> Result<Vec<u64>, ImageError>
    requires most { segments ≤ 128 }
    requires fits { count ≤ 64 * segments }
    ensures exact { Answers result (items_fault count 0 0 (64 * segments) items.now) }
    ensures each { IfOk result (λ words. All (λ word. word < 2 ^ 64) words.items) }
    ensures length { IfOk result (λ words. length words.items ≡ 32768 * segments) }
    ensures count { IfOk result (λ words. length (stored (64 * segments) 0 words.items) ≡ count) }
    ensures pages { IfOk result (λ words.
        items.now ≡ pages_spelling (stored (64 * segments) 0 words.items)) }
{
    let limit = SEGMENT_PAGES * segments;
    let mut words = Vec::with_capacity(alloc, PAGE_WORDS * limit as usize)?;
    let mut rest = items;
    let mut low = 0;
    for at in 0..count {
        if rest.len() < ITEM_BYTES {
            return Err(ImageError::Truncated);
        }
        let page = LittleEndian::read_u32(rest);
        if page < low || limit <= page {
            return Err(ImageError::BadPage { at });
        }
        push_page(&mut words, page, &rest[4..])?;
        if is_blank(&words[PAGE_WORDS * page as usize..]) {
            return Err(ImageError::BadPage { at });
        }
        low = page + 1;
        rest = &rest[ITEM_BYTES..];
    }
    if !rest.is_empty() {
        let at = (HEADER_BYTES + ITEM_BYTES * count as usize) as u32;
        return Err(ImageError::Trailing { at });
    }
    push_zeros(&mut words, PAGE_WORDS * limit as usize)?;
    Ok(words)
}

// The words of bytes that have no fault.
#[tactic(auto, unfolding(crate::specs::Fault::first_fault, crate::specs::Fault::number_at, crate::specs::Spelling::magic))]
fn read_image(alloc: Global, bytes: &[u8]) -> Result<Vec<u64>, ImageError>
    ensures exact { Answers result (first_fault bytes.now) }
    ensures header { IsErrOf result ImageError.NoMemory → HasHeader bytes.now }
    ensures found { IfOk result (λ words.
        IsImage words.items × (bytes.now ≡ spelling words.items)) }
{
    if bytes.len() < VERSION_AT {
        return Err(ImageError::Truncated);
    }
    if !bytes.starts_with(&MAGIC) {
        return Err(ImageError::BadMagic);
    }
    if bytes.len() < SEGMENTS_AT {
        return Err(ImageError::Truncated);
    }
    if LittleEndian::read_u32(&bytes[VERSION_AT..]) != VERSION {
        return Err(ImageError::BadVersion);
    }
    if bytes.len() < PAGES_AT {
        return Err(ImageError::Truncated);
    }
    let segments = LittleEndian::read_u32(&bytes[SEGMENTS_AT..]);
    if segments < 1 || MOST_SEGMENTS < segments {
        return Err(ImageError::BadSize);
    }
    if bytes.len() < HEADER_BYTES {
        return Err(ImageError::Truncated);
    }
    let count = LittleEndian::read_u32(&bytes[PAGES_AT..]);
    if SEGMENT_PAGES * segments < count {
        return Err(ImageError::BadSize);
    }
    read_pages(alloc, segments, count, &bytes[HEADER_BYTES..])
}

/// The words of the image file with these bytes: 1 to 128 segments of 32,768 words.
///
/// An error is the first fault of the bytes from left to right, or `NoMemory`.
pub fn decode(alloc: Global, bytes: &[u8]) -> Result<Vec<u64>, ImageError>
    // What is read is spelled so, each byte of it.
    ensures found { IfOk result (λ words.
        IsImage words.items × (bytes.now ≡ spelling words.items)) }
    // What an image is spelled as is read as that image, unless memory runs out.
    ensures reads_back { (words : List ℕ) → IsImage words → bytes.now ≡ spelling words
        → Reads result words }
    // Bytes that begin a spelling and end before it does are truncated, unless memory runs out.
    ensures prefix { (words : List ℕ) (more : List ℕ) → IsImage words → 0 < length more
        → spelling words ≡ bytes.now ++ more → Answers result (Some ImageError.Truncated) }
    // Each error but want of memory is the first fault of the bytes, and there is a value only
    // where they have none.
    ensures exact { Answers result (first_fault bytes.now) }
    // The header takes no memory: where memory runs out, it has no fault.
    ensures header { IsErrOf result ImageError.NoMemory → HasHeader bytes.now }
{
    read_image(alloc, bytes)
}
