ghost use Rattle.std.specs.Prelude.{◌≡◌, Some, None};
ghost use Rattle.whole_file.specs.declared.place.Stage.{Stage};

use std::alloc::Global;
use std::io::{ErrorKind, Result};
use whole_file::{Place, Stage};

/// The calls of a place that may fail.
#[derive(Clone, Copy, Debug, PartialEq, Eq)]
pub enum PlaceCall {
    Create,
    OpenInPlace,
    Write,
    Sync,
    Replace,
    SyncFolder,
}

/// A file in memory, of which one kind of call fails.
#[derive(Drop)]
pub struct FakePlace {
    pub alloc: Global,
    pub shown: Vec<u8>,
    pub written: Vec<u8>,
    pub stage: Stage,
    pub synced: bool,
    pub allows: bool,
    pub failing: Option<PlaceCall>,
}

impl FakePlace {
    pub fn new(alloc: Global, shown: Vec<u8>, allows: bool, failing: Option<PlaceCall>) -> FakePlace
        ensures { result.stage ≡ Stage.Closed }
    {
        FakePlace {
            alloc,
            shown,
            written: Vec::new(alloc),
            stage: Stage::Closed,
            synced: false,
            allows,
            failing,
        }
    }

    fn call(&self, call: PlaceCall) -> Result<()> {
        if self.failing == Some(call) {
            return Err(ErrorKind::Other.into());
        }
        Ok(())
    }
}

impl Place for FakePlace {
    ghost shown = { λ place. Some place.shown.items };

    ghost written = { λ place. Some place.written.items };

    ghost stage = { λ place. place.stage };

    ghost synced = { λ place. place.synced };

    ghost allows = { λ place. Some place.allows };

    fn stage(&self) -> Stage {
        self.stage
    }

    fn create(&mut self) -> Result<bool> {
        self.call(PlaceCall::Create)?;
        if self.allows {
            self.stage = Stage::Beside;
        }
        Ok(self.allows)
    }

    fn open_in_place(&mut self) -> Result<()> {
        self.call(PlaceCall::OpenInPlace)?;
        self.shown = Vec::new(self.alloc);
        self.stage = Stage::InPlace;
        Ok(())
    }

    fn write(&mut self, bytes: &[u8]) -> Result<usize> {
        if self.written.len() > 3 {
            self.call(PlaceCall::Write)?;
        }
        let count = bytes.len().min(4);
        if self.stage == Stage::InPlace {
            self.shown.extend_from_slice(&bytes[..count])?;
        }
        self.written.extend_from_slice(&bytes[..count])?;
        self.synced = false;
        Ok(count)
    }

    fn sync(&mut self) -> Result<()> {
        self.call(PlaceCall::Sync)?;
        self.synced = true;
        Ok(())
    }

    fn replace(&mut self) -> Result<()> {
        self.call(PlaceCall::Replace)?;
        self.shown = Vec::from_slice(self.alloc, &self.written)?;
        self.stage = Stage::InPlace;
        Ok(())
    }

    fn sync_folder(&mut self) -> Result<()> {
        self.call(PlaceCall::SyncFolder)
    }

    fn discard(&mut self) {
        self.stage = Stage::Closed;
    }
}
