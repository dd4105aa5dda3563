// Texts that are written into blocks and read back.
ghost use Rattle.std.specs.Prelude.{◌≡◌, ℕ, ◌<◌, ◌≤◌, IfOk, IsUtf8, length};
ghost use Rattle.pm_model.specs.Device.{IsClean};
ghost use Rattle.pm_model.specs.Plain.{device_of};
ghost use Rattle.text_block.specs.Blocks.{IsTextBlock};

use heap_palloc::{AllocError, plan_allocate};
use mv_model::Text;
use pm_model::{Memory, NoMemory, Place, Plain};
use std::alloc::Global;
use std::process::Abort;
use std::test::Fail;
use test_ground::{formatted_heap, play_whole};
use text_block::{plan_write, read, words_of};

// The bytes `########` as a word.
const FILLED: u64 = 0x2323_2323_2323_2323;

// A formatted image of one segment with a block of so many words, and the place of that block.
fn image_with_block(
    rt: &impl Abort,
    alloc: Global,
    words: u32,
) -> Result<(Plain, Place), AllocError>
    requires some { 1 ≤ words }
    requires most { words ≤ 251 }
    ensures size { IfOk result (λ made. length (device_of made.0).cached ≡ 32768) }
    ensures place { IfOk result (λ made. made.1.0 < 3072) }
    ensures clean { IfOk result (λ made. (w : ℕ) → IsClean (device_of made.0) w) }
{
    let (mut memory, mut heap) = formatted_heap(alloc, 1)?;
    assert_eq!(rt; memory.load(Place(576)), 0);
    assert_eq!(rt; memory.load(Place(520)), 0);
    let (mut plan, block) = plan_allocate(alloc, &memory, &mut heap, 0, words, Place(520))?;
    play_whole(&mut memory, 1, &mut plan);
    assert_eq!(rt; memory.len(), 32_768);
    assert!(rt; block.first.0 < 3072);
    Ok((memory, block.first))
}

// Writes a text at a place.
fn write<M: Memory>(alloc: Global, memory: &mut M, at: Place, text: &Text) -> Result<(), NoMemory>
    requires short { length text.now ≤ 2000 }
    requires utf8 { IsUtf8 text.now }
    requires place { at.0 < 3072 }
    requires size { length (M.device memory.old).cached ≡ 32768 }
    requires clean { (w : ℕ) → IsClean (M.device memory.old) w }
    ensures size { length (M.device memory.new).cached ≡ 32768 }
    ensures clean { (w : ℕ) → IsClean (M.device memory.new) w }
    ensures sound { IfOk result (λ _. IsTextBlock (M.device memory.new).cached at.0) }
{
    let mut plan = plan_write(alloc, at, text)?;
    play_whole(memory, 1, &mut plan);
    Ok(())
}

// A formatted image with a text in a block of its own, and the place of that block.
pub(crate) fn written(
    rt: &impl Abort,
    alloc: Global,
    text: &Text,
) -> Result<(Plain, Place), AllocError>
    ensures sound { IfOk result (λ made. IsTextBlock (device_of made.0).cached made.1.0) }
{
    let bytes = text.as_str().len();
    assert!(rt; bytes <= 2000);
    let (mut memory, at) = image_with_block(rt, alloc, words_of(bytes as u32))?;
    write(alloc, &mut memory, at, text)?;
    Ok((memory, at))
}

// The first four words of a block behind the writing of a text over one of 24 bytes.
fn words_over(rt: &impl Abort, alloc: Global, text: &str) -> Result<[u64; 4], AllocError> {
    let longest = Text::from_str(alloc, "########################")?;
    let text = Text::from_str(alloc, text)?;
    assert!(rt; longest.as_str().len() <= 2000);
    assert!(rt; text.as_str().len() <= 2000);
    let (mut memory, at) = image_with_block(rt, alloc, 4)?;
    write(alloc, &mut memory, at, &longest)?;
    write(alloc, &mut memory, at, &text)?;
    Ok([
        memory.load(at),
        memory.load(Place(at.0 + 1)),
        memory.load(Place(at.0 + 2)),
        memory.load(Place(at.0 + 3)),
    ])
}

#[test]
fn words_of_a_block(rt: HostRuntime) -> Result<(), Fail> {
    for (text, words) in [
        ("", [0, FILLED, FILLED, FILLED]),
        ("ü", [2, 0xbcc3, FILLED, FILLED]),
        ("abcdefg", [7, 0x0067_6665_6463_6261, FILLED, FILLED]),
        ("abcdefgh", [8, 0x6867_6665_6463_6261, FILLED, FILLED]),
        ("abcdefghi", [9, 0x6867_6665_6463_6261, 0x69, FILLED]),
    ] {
        assert_eq!(rt; words_over(&rt, rt.alloc(), text), Ok(words), "of {text}");
    }
    Ok(())
}

// A text of so many bytes: the small letters, again and again.
fn letters(alloc: Global, bytes: usize) -> Result<Text, NoMemory> {
    let mut text = String::new(alloc);
    for place in 0..bytes {
        text.push(char::from(b'a' + (place % 26) as u8))?;
    }
    Ok(Text::from(text))
}

#[test]
fn texts_are_read_back(rt: HostRuntime) -> Result<(), Fail> {
    for bytes in [0, 7, 8, 9, 2000] {
        let text = letters(rt.alloc(), bytes)?;
        let (memory, at) = written(&rt, rt.alloc(), &text)?;
        assert_eq!(rt; memory.load(at), bytes as u64);
        assert_eq!(rt; read(rt.alloc(), &memory, at)?, text, "of {bytes} bytes");
    }
    Ok(())
}
