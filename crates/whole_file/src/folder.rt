ghost use Rattle.std.specs.Prelude.{◌≡◌, None};
ghost use Rattle.whole_file.specs.declared.place.Stage.{Stage};
ghost use Rattle.whole_file.specs.Folders.{stage_in, is_synced};

use crate::claim::{Standing, names, open_regular, standing_at};
use crate::{Claim, Place, SPARES, Stage, spare_name};
use std::fs;
use std::fs::{File, OpenOptions, TryLockError};
use std::io::{ErrorKind, Result, Write};
use std::os::unix::fs::{MetadataExt, fchown};
use std::path::Path;
use std::rt::Files;

/// A file of the system in its folder, whose path is claimed. It tells no content.
#[derive(Drop)]
pub struct FolderFile<'a, R> {
    rt: &'a R,
    claim: &'a Claim,
    stage: Stage,
    synced: bool,
    file: Option<File>,
    name: String,
}

impl<'a, R: Files<File = File> + AllocGlobal> FolderFile<'a, R> {
    /// The file at the claimed path, with nothing open.
    pub fn new(rt: &'a R, claim: &'a Claim) -> FolderFile<'a, R>
        ensures { stage_in result ≡ Stage.Closed }
    {
        FolderFile {
            rt,
            claim,
            stage: Stage::Closed,
            synced: false,
            file: None,
            name: String::new(rt.alloc()),
        }
    }
}

impl<'a, R: Files<File = File> + AllocGlobal> Place for FolderFile<'a, R> {
    ghost shown = { λ _. None };

    ghost written = { λ _. None };

    ghost stage = { stage_in };

    ghost synced = { is_synced };

    ghost allows = { λ _. None };

    fn stage(&self) -> Stage {
        self.stage
    }

    fn create(&mut self) -> Result<bool> {
        let target = self.claim.target();
        if !may_be_replaced(self.rt, target)? {
            return Ok(false);
        }
        match make_new(self.rt, target) {
            Ok((file, name)) => {
                take_over(self.rt, target, &file);
                self.file = Some(file);
                self.name = name;
                self.stage = Stage::Beside;
                Ok(true)
            }
            Err(error) if is_refusal(error.kind()) => Ok(false),
            Err(error) => Err(error),
        }
    }

    fn open_in_place(&mut self) -> Result<()> {
        self.file = Some(File::create(self.rt, self.claim.target())?);
        self.stage = Stage::InPlace;
        Ok(())
    }

    fn write(&mut self, bytes: &[u8]) -> Result<usize> {
        match &mut self.file {
            Some(file) => file.write(bytes),
            None => Err(ErrorKind::Other.into()),
        }
    }

    fn sync(&mut self) -> Result<()> {
        if let Some(file) = &self.file {
            file.sync_all()?;
        }
        self.synced = true;
        Ok(())
    }

    fn replace(&mut self) -> Result<()> {
        fs::rename(self.rt, self.name.as_str(), self.claim.target())?;
        self.stage = Stage::InPlace;
        Ok(())
    }

    fn sync_folder(&mut self) -> Result<()> {
        match File::open(self.rt, folder_of(self.claim.target())) {
            Ok(folder) => unless_unable(folder.sync_all()),
            Err(_) => Ok(()),
        }
    }

    fn discard(&mut self) {
        let _ = fs::remove_file(self.rt, self.name.as_str());
        self.file = None;
        self.stage = Stage::Closed;
    }
}

/// The folder in which the path lies.
fn folder_of(path: &str) -> &str {
    match Path::new(path).parent() {
        Some(folder) if !folder.as_str().is_empty() => folder.as_str(),
        _ => ".",
    }
}

/// A folder that the system can't flush is left to it.
fn unless_unable(flushed: Result<()>) -> Result<()> {
    match flushed {
        Err(error) if error.kind() == ErrorKind::InvalidInput => Ok(()),
        Err(error) if error.kind() == ErrorKind::Unsupported => Ok(()),
        other => other,
    }
}

/// Whether a new file may take the place of what stands at the path. A file there that may not be written is an error.
fn may_be_replaced<R: Files<File = File>>(rt: &R, path: &str) -> Result<bool> {
    let standing = standing_at(rt, path);
    if standing == Standing::RegularFile {
        let _writable = OpenOptions::new().write(true).open(rt, path)?;
    }
    Ok(standing.is_replaced_whole())
}

/// Makes a new file beside the file at this path, and gives it with its name.
fn make_new<R: Files<File = File> + AllocGlobal>(rt: &R, path: &str) -> Result<(File, String)> {
    for number in 0..SPARES {
        let name = spare_name(rt.alloc(), path, number)?;
        if let Some(file) = make_spare(rt, name.as_str())? {
            return Ok((file, name));
        }
    }
    Err(ErrorKind::ResourceBusy.into())
}

/// Makes the new file with this name and takes its lock. None where another run has a file of this name. What a run
/// that was killed has left there is removed first.
fn make_spare<R: Files<File = File>>(rt: &R, name: &str) -> Result<Option<File>> {
    remove_leftover(rt, name);
    match File::create_new(rt, name) {
        Ok(file) if is_free(&file) && names(rt, name, &file) => Ok(Some(file)),
        Ok(_) => Ok(None),
        Err(error) if error.kind() == ErrorKind::AlreadyExists => Ok(None),
        Err(error) => Err(error),
    }
}

/// Removes a new file that no run has.
fn remove_leftover<R: Files<File = File>>(rt: &R, name: &str) {
    if let Some(file) = open_regular(rt, name)
        && is_free(&file)
        && names(rt, name, &file)
    {
        let _ = fs::remove_file(rt, name);
    }
}

/// Takes the file's lock, unless another run has it. Where the system gives no locks, no run has one.
fn is_free(file: &File) -> bool {
    !matches!(file.try_lock(), Err(TryLockError::WouldBlock))
}

/// Gives the new file the owner, the group and the mode of the one that it replaces, as far as the system lets it.
fn take_over<R: Files<File = File>>(rt: &R, path: &str, file: &File) {
    if let Ok(found) = fs::metadata(rt, path) {
        let _ = fchown(file, None, Some(found.gid()));
        let _ = fchown(file, Some(found.uid()), None);
        let _ = file.set_permissions(found.permissions());
    }
}

/// Whether the folder refuses a new file, whatever its bytes.
fn is_refusal(kind: ErrorKind) -> bool {
    matches!(
        kind,
        ErrorKind::PermissionDenied | ErrorKind::ReadOnlyFilesystem | ErrorKind::InvalidFilename
    )
}
