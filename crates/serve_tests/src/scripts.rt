//! Worked scripts over a formatted image of one segment.
use crate::calls::{
    NONE, PLAIN, formatted, has_printed, run_script, run_sources, source, wrote_nothing,
};
use engine_core::stage_fresh;
use io_edge::{LIMIT, MemSource, NoMemory};
use pm_image::{ImageError, encode};
use session_serve::Status;
use std::alloc::Global;
use std::test::Fail;

pub(crate) const SCRIPT: &str = "s1 begin\ns1 insert t 7\ns1 get t 0\ns1 commit\n";

pub(crate) const HISTORY: &str = "s1 1 began 1 at 0\ns1 2 row 0\ns1 3 values 7\ns1 4 committed 1\n";

/// Scripts, how they end, and what they print.
const SCRIPTS: [(&str, Status, &str); 6] = [
    (SCRIPT, Status::Done, HISTORY),
    (
        "s1 insert t 7\ns1 begin\ns1 begin\ns1 get t 0\ns1 commit\n",
        Status::Done,
        "s1 1 notxn\ns1 2 began 1 at 0\ns1 3 alreadyopen\ns1 4 norow\ns1 5 readonly\n",
    ),
    ("", Status::Done, ""),
    ("s1 begin", Status::Done, "s1 1 began 1 at 0\n"),
    (
        "s1 begin\ns1 abort\n",
        Status::BadScript { line: 2, rule: 0 },
        "",
    ),
    (
        "s1 begin\ns1 jump\n",
        Status::BadScript { line: 2, rule: 5 },
        "",
    ),
];

fn prints(alloc: Global, script: &str, status: Status, text: &str) -> Result<bool, NoMemory> {
    let image = formatted(alloc)?;
    let ended = run_script(alloc, PLAIN, &image, script)?;
    Ok(has_printed(&ended, status, text))
}

#[test]
fn prints_the_history_of_a_script(rt: HostRuntime) -> Result<(), Fail> {
    for (script, status, text) in SCRIPTS {
        assert!(rt; prints(rt.alloc(), script, status, text)?, "at {script}");
    }
    Ok(())
}

/// The first bytes of an image of one segment and two pages.
const BEGINS: [u8; 20] = [
    0x53, 0x4f, 0x46, 0x4f, 0x52, 0x54, 0x50, 0x4d, 1, 0, 0, 0, 1, 0, 0, 0, 2, 0, 0, 0,
];

fn is_formatted(alloc: Global) -> Result<bool, NoMemory> {
    let image = formatted(alloc)?;
    Ok(image.len() == 8_220 && image.starts_with(BEGINS.as_slice()))
}

fn keeps_the_image(alloc: Global) -> Result<bool, NoMemory> {
    let image = formatted(alloc)?;
    let ended = run_script(alloc, PLAIN, &image, "")?;
    Ok(ended.image.as_slice() == image.as_slice())
}

#[test]
fn keeps_an_image_that_nothing_is_done_to(rt: HostRuntime) -> Result<(), Fail> {
    assert!(rt; is_formatted(rt.alloc())?);
    assert!(rt; keeps_the_image(rt.alloc())?);
    Ok(())
}

fn has_what_was_committed(alloc: Global) -> Result<bool, NoMemory> {
    let image = formatted(alloc)?;
    let first = run_script(alloc, PLAIN, &image, SCRIPT)?;
    let second = run_script(alloc, PLAIN, &first.image, "s1 begin\ns1 get t 0\n")?;
    let text = "s1 1 began 1 at 1\ns1 2 values 7\n";
    Ok(has_printed(&second, Status::Done, text))
}

#[test]
fn an_image_opened_again_has_what_was_committed(rt: HostRuntime) -> Result<(), Fail> {
    assert!(rt; has_what_was_committed(rt.alloc())?);
    Ok(())
}

/// Whether these bytes are refused as no image.
fn refuses(alloc: Global, image: &[u8], status: Status) -> Result<bool, NoMemory> {
    let ended = run_script(alloc, PLAIN, image, SCRIPT)?;
    Ok(wrote_nothing(&ended, status))
}

fn refuses_a_short_image(alloc: Global) -> Result<bool, NoMemory> {
    refuses(
        alloc,
        &BEGINS[..19],
        Status::BadBytes(ImageError::Truncated),
    )
}

fn refuses_a_long_image(alloc: Global) -> Result<bool, NoMemory> {
    let mut image = formatted(alloc)?;
    image.push(0)?;
    let trailing = ImageError::Trailing { at: 8_220 };
    refuses(alloc, &image, Status::BadBytes(trailing))
}

fn refuses_a_broken_image(alloc: Global) -> Result<bool, NoMemory> {
    let mut words = stage_fresh(alloc, 1)?;
    if let Some(word) = words.get_mut(513) {
        *word = 101;
    }
    let image = encode(alloc, &words)?;
    let status = Status::BadImage {
        rule: 2,
        place: 513,
    };
    refuses(alloc, &image, status)
}

#[test]
fn refuses_a_bad_image(rt: HostRuntime) -> Result<(), Fail> {
    assert!(rt; refuses_a_short_image(rt.alloc())?);
    assert!(rt; refuses_a_long_image(rt.alloc())?);
    assert!(rt; refuses_a_broken_image(rt.alloc())?);
    Ok(())
}

/// One byte more than an input may have.
fn too_long(alloc: Global) -> Result<MemSource, NoMemory> {
    Ok(MemSource::new(vec![in alloc; b'\n'; LIMIT + 1]?, Vec::new(alloc)))
}

fn refuses_a_long_source(alloc: Global, is_image: bool) -> Result<bool, NoMemory> {
    let long = too_long(alloc)?;
    let short = source(alloc, &formatted(alloc)?, &[])?;
    let ended = if is_image {
        run_sources(alloc, PLAIN, long, short, &NONE)?
    } else {
        run_sources(alloc, PLAIN, short, long, &NONE)?
    };
    Ok(wrote_nothing(&ended, Status::InputTooLong))
}

#[test]
fn refuses_an_input_past_the_limit(rt: HostRuntime) -> Result<(), Fail> {
    assert!(rt; refuses_a_long_source(rt.alloc(), true)?);
    assert!(rt; refuses_a_long_source(rt.alloc(), false)?);
    Ok(())
}
