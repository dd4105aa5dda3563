ghost use Rattle.std.specs.Prelude.{◌≡◌, ◌↔◌, ◌≢◌, true};
ghost use Rattle.whole_file.specs.declared.claim.Standing.{Standing};

use std::alloc::AllocError;
use std::fs;
use std::fs::{File, OpenOptions, TryLockError};
use std::io::ErrorKind;
use std::os::unix::fs::MetadataExt;
use std::rt::Files;
use thiserror::Error;

/// How often a file is looked at that is replaced while its lock is taken.
const TRIES: u32 = 16;

/// What stands at a path.
#[derive(Clone, Copy, Debug, PartialEq, Eq)]
pub enum Standing {
    /// Nothing, not even a link.
    Nothing,
    /// A regular file, or a link to one.
    RegularFile,
    /// Anything else: a folder, a pipe, a device, or a link to nothing.
    Other,
}

impl Standing {
    /// Whether a new file may take the place of what stands there.
    pub fn is_replaced_whole(self) -> bool
        ensures { result ≡ true ↔ self ≢ Standing.Other }
    {
        self != Standing::Other
    }
}

/// Why a path can't be claimed.
#[derive(Clone, Copy, Debug, PartialEq, Eq, Error)]
pub enum ClaimError {
    #[error("another run has the file")]
    Busy,
    #[error("no memory")]
    NoMemory,
}

/// A file that will be written, as it was found: where it lies behind all links, and its advisory lock, where it is a
/// regular file and the system gives one. The lock is held until the claim is dropped.
#[derive(Drop)]
pub struct Claim {
    target: String,
    lock: Option<File>,
}

impl Claim {
    /// Claims the file at this path. Nothing is read or written.
    pub fn of<R: Files<File = File> + AllocGlobal>(
        rt: &R,
        path: &str,
    ) -> Result<Claim, ClaimError> {
        for _ in 0..TRIES {
            let Ok(target) = target_of(rt, path) else {
                return Err(ClaimError::NoMemory);
            };
            let Some(file) = open_regular(rt, path) else {
                return Ok(Claim { target, lock: None });
            };
            match file.try_lock() {
                Err(TryLockError::WouldBlock) => return Err(ClaimError::Busy),
                Err(TryLockError::Error(_)) => return Ok(Claim { target, lock: None }),
                Ok(()) => {}
            }
            if names(rt, path, &file) {
                let lock = Some(file);
                return Ok(Claim { target, lock });
            }
        }
        Err(ClaimError::Busy)
    }

    /// The path of the file itself, behind all links.
    pub fn target(&self) -> &str {
        self.target.as_str()
    }

    /// Whether the claim holds a lock.
    pub fn is_locked(&self) -> bool {
        self.lock.is_some()
    }
}

/// What stands at the path.
pub(crate) fn standing_at<R: Files>(rt: &R, path: &str) -> Standing {
    match fs::metadata(rt, path) {
        Ok(found) if found.is_file() => Standing::RegularFile,
        Ok(_) => Standing::Other,
        Err(_) => match fs::symlink_metadata(rt, path) {
            Ok(_) => Standing::Other,
            Err(_) => Standing::Nothing,
        },
    }
}

/// The path behind all links, or the path as it is given where it leads to no file.
fn target_of<R: Files + AllocGlobal>(rt: &R, path: &str) -> Result<String, AllocError> {
    match fs::canonicalize(rt, path) {
        Ok(found) => Ok(found.into_string()),
        Err(error) if error.kind() == ErrorKind::OutOfMemory => Err(AllocError),
        Err(_) => String::from_str(rt.alloc(), path),
    }
}

/// Opens the regular file at the path, and changes nothing. None where there is no such file, or it may not be opened.
pub(crate) fn open_regular<R: Files<File = File>>(rt: &R, path: &str) -> Option<File> {
    if standing_at(rt, path) != Standing::RegularFile {
        return None;
    }
    match OpenOptions::new().read(true).write(true).open(rt, path) {
        Ok(file) => Some(file),
        Err(_) => File::open(rt, path).ok(),
    }
}

/// Whether the path names this open file.
pub(crate) fn names<R: Files>(rt: &R, path: &str, file: &File) -> bool {
    match (fs::metadata(rt, path), file.metadata()) {
        (Ok(found), Ok(open)) => found.dev() == open.dev() && found.ino() == open.ino(),
        _ => false,
    }
}
