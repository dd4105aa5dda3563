use crate::fake_place::{FakePlace, PlaceCall};
use std::alloc::{AllocError, Global};
use std::fs::File;
use std::io::{Result as IoResult, Write};
use std::os::unix::fs::symlink;
use std::rt::Files;
use std::test::Fail;
use std::{fs, io};
use whole_file::{Claim, ClaimError, FolderFile, Stage, WholeFile};

const OLD: &[u8] = b"the old bytes";

const NEW: &[u8] = b"bytes that are new";

fn write_new<W: Write>(file: &mut W) -> IoResult<()> {
    file.write_all(NEW)?;
    file.flush()
}

/// What a writing over the old bytes answers, and whether the path shows the old bytes and the new ones, and a file
/// beside it.
fn outcome(
    alloc: Global,
    allows: bool,
    failing: Option<PlaceCall>,
) -> Result<[bool; 4], AllocError> {
    let old = Vec::from_slice(alloc, OLD)?;
    let mut file = WholeFile::new(FakePlace::new(alloc, old, allows, failing));
    let done = write_new(&mut file).is_ok();
    let place = file.place();
    let shown = place.shown.as_slice();
    Ok([
        done,
        shown == OLD,
        shown == NEW,
        place.stage == Stage::Beside,
    ])
}

#[test]
fn each_call_fails_in_turn(rt: HostRuntime) -> Result<(), AllocError> {
    let old = [false, true, false, false];
    let cases = [
        (true, None, [true, false, true, false]),
        (true, Some(PlaceCall::Create), old),
        (true, Some(PlaceCall::Write), old),
        (true, Some(PlaceCall::Sync), old),
        (true, Some(PlaceCall::Replace), old),
        (
            true,
            Some(PlaceCall::SyncFolder),
            [false, false, true, false],
        ),
        (false, None, [true, false, true, false]),
        (false, Some(PlaceCall::OpenInPlace), old),
    ];
    for (allows, failing, expected) in cases {
        let found = outcome(rt.alloc(), allows, failing)?;
        assert_eq!(rt; found, expected, "allows {allows}, failing {failing:?}");
    }
    Ok(())
}

/// Writes the new bytes to the file at the path, as the program does.
fn write_file<R: Files<File = File> + AllocGlobal>(rt: &R, path: &str) -> io::Result<()> {
    match Claim::of(rt, path) {
        Ok(claim) => write_new(&mut WholeFile::new(FolderFile::new(rt, &claim))),
        Err(_) => Err(io::ErrorKind::WouldBlock.into()),
    }
}

fn shows<R: Files + AllocGlobal>(rt: &R, path: &str, bytes: &[u8]) -> bool {
    match fs::read(rt, path) {
        Ok(found) => found.as_slice() == bytes,
        Err(_) => false,
    }
}

#[test]
fn real_files(rt: HostRuntime) -> Result<(), Fail> {
    fs::write(&rt, "old", OLD)?;
    fs::write(&rt, "left.sofort-new0", OLD)?;
    symlink(&rt, "old", "link")?;
    for path in ["link", "new", "left"] {
        assert!(rt; write_file(&rt, path).is_ok(), "{path}");
        assert!(rt; shows(&rt, path, NEW), "{path}");
    }
    assert!(rt; shows(&rt, "old", NEW));
    assert!(rt; fs::symlink_metadata(&rt, "link")?.is_symlink());
    assert!(rt; !fs::exists(&rt, "old.sofort-new0")?);
    assert!(rt; !fs::exists(&rt, "left.sofort-new0")?);
    assert!(rt; write_file(&rt, "no_folder/new").is_err());
    Ok(())
}

#[test]
fn one_run_at_a_time(rt: HostRuntime) -> Result<(), Fail> {
    fs::write(&rt, "store", OLD)?;
    let first = Claim::of(&rt, "store")?;
    assert!(rt; first.is_locked());
    assert_eq!(rt; Claim::of(&rt, "store").err(), Some(ClaimError::Busy));
    let mut file = WholeFile::new(FolderFile::new(&rt, &first));
    assert!(rt; write_new(&mut file).is_ok());
    assert_eq!(rt; Claim::of(&rt, "store").err(), Some(ClaimError::Busy));
    drop(file);
    drop(first);
    assert!(rt; Claim::of(&rt, "store").is_ok());
    Ok(())
}
