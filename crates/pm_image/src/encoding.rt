//! Writing an image as the bytes of a file.

ghost use Rattle.std.specs.Prelude.{◌≡◌, ◌<◌, ◌≤◌, ◌+◌, ◌*◌, ◌^◌, ◌++◌, length, take, drop, vec_len, IfOk, OnOk};
ghost use Rattle.pm_image.specs.Spelling.{IsWhole, header_spelling, number_spelling, words_spelling, spelling};

use crate::error::NoMemory;
use crate::layout::{
    HEADER_BYTES, ITEM_BYTES, MAGIC, PAGE_WORDS, PAGES_AT, SEGMENT_PAGES, VERSION, is_blank,
};
use byteorder::{ByteOrder, LittleEndian};
use std::alloc::Global;

// Appends a number in four bytes.
#[tactic(auto, unfolding(crate::specs::Spelling::number_spelling))]
fn push_number(bytes: &mut Vec<u8>, number: u32) -> Result<(), NoMemory>
    ensures { OnOk result (bytes.new.items ≡ bytes.old.items ++ number_spelling number) }
{
    let mut buffer = [0; 4];
    LittleEndian::write_u32(&mut buffer, number);
    bytes.extend_from_slice(&buffer)?;
    Ok(())
}

// Appends the words, in eight bytes each.
#[tactic(auto, unfolding(crate::specs::Spelling::word_spelling))]
fn push_words(bytes: &mut Vec<u8>, words: &[u64]) -> Result<(), NoMemory>
    requires { vec_len bytes.old + 8 * length words.now < 2 ^ 64 }
    ensures { OnOk result (bytes.new.items ≡ bytes.old.items ++ words_spelling words.now) }
{
    let start = bytes.len();
    bytes.resize(start + 8 * words.len(), 0)?;
    LittleEndian::write_u64_into(words, &mut bytes[start..]);
    Ok(())
}

// Appends the fields before the items.
#[tactic(auto, unfolding(crate::specs::Spelling::header_spelling, crate::specs::Spelling::magic))]
fn push_header(bytes: &mut Vec<u8>, segments: u32, pages: u32) -> Result<(), NoMemory>
    ensures { OnOk result (bytes.new.items ≡ bytes.old.items ++ header_spelling segments pages) }
{
    bytes.extend_from_slice(&MAGIC)?;
    push_number(bytes, VERSION)?;
    push_number(bytes, segments)?;
    push_number(bytes, pages)?;
    Ok(())
}

// Writes the number of stored pages into the header.
#[tactic(auto, unfolding(crate::specs::Spelling::number_spelling))]
fn put_page_count(bytes: &mut [u8], pages: u32)
    requires { 20 ≤ length bytes.old }
    ensures { bytes.new ≡ take 16 bytes.old ++ number_spelling pages ++ drop 20 bytes.old }
{
    LittleEndian::write_u32(&mut bytes[PAGES_AT..], pages);
}

/// The bytes of the image file of these words, which are 1 to 128 segments of 32,768.
pub fn encode(alloc: Global, words: &[u64]) -> Result<Vec<u8>, NoMemory>
    requires { IsWhole words.now }
    ensures { IfOk result (λ bytes. bytes.items ≡ spelling words.now) }
{
    let pages = words.len() / PAGE_WORDS;
    let mut bytes = Vec::with_capacity(alloc, HEADER_BYTES + ITEM_BYTES * pages)?;
    push_header(&mut bytes, pages as u32 / SEGMENT_PAGES, 0)?;
    let mut stored = 0u32;
    for page in 0..pages {
        let start = PAGE_WORDS * page;
        let page_words = &words[start..start + PAGE_WORDS];
        if !is_blank(page_words) {
            push_number(&mut bytes, page as u32)?;
            push_words(&mut bytes, page_words)?;
            stored += 1;
        }
    }
    put_page_count(&mut bytes, stored);
    Ok(bytes)
}
