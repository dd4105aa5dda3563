//! What each command does with its words.
use crate::calls::{NONE, PLAIN, formatted, has_printed, run_failing, run_script, wrote_nothing};
use crate::scripts::{HISTORY, SCRIPT};
use io_edge::NoMemory;
use session_serve::Status;
use std::alloc::Global;
use std::test::Fail;

fn formats_one_segment(alloc: Global) -> Result<bool, NoMemory> {
    let image = formatted(alloc)?;
    let words = ["format", "--segments=1", "out"];
    let ended = run_failing(alloc, &words, b"", b"", &NONE)?;
    Ok(has_printed(&ended, Status::Done, "") && ended.image.as_slice() == image.as_slice())
}

fn formats_an_image_that_opens(alloc: Global) -> Result<bool, NoMemory> {
    let ended = run_failing(alloc, &["format", "out"], b"", b"", &NONE)?;
    let script = run_script(alloc, PLAIN, &ended.image, SCRIPT)?;
    Ok(has_printed(&ended, Status::Done, "") && has_printed(&script, Status::Done, HISTORY))
}

#[test]
fn formats_an_image(rt: HostRuntime) -> Result<(), Fail> {
    assert!(rt; formats_one_segment(rt.alloc())?);
    assert!(rt; formats_an_image_that_opens(rt.alloc())?);
    Ok(())
}

const NO_COMMANDS: [&[&str]; 4] = [
    &[],
    &["script", "a", "b"],
    &["serve", "a", "b", "c"],
    &["format", "a", "--segments", "0"],
];

/// The input is an image and a script that would be taken, so that only the words are at fault.
fn refuses(alloc: Global, words: &[&str]) -> Result<bool, NoMemory> {
    let image = formatted(alloc)?;
    let ended = run_failing(alloc, words, &image, SCRIPT.as_bytes(), &NONE)?;
    Ok(wrote_nothing(&ended, Status::Usage))
}

#[test]
fn refuses_words_that_are_no_command(rt: HostRuntime) -> Result<(), Fail> {
    for words in NO_COMMANDS {
        assert!(rt; refuses(rt.alloc(), words)?);
    }
    Ok(())
}
