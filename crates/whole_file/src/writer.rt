ghost use Rattle.std.specs.Prelude.{◌≡◌, ◌≢◌, ◌⊎◌, ◌↔◌, true, false, IsErr, IfSome, OnOk, OnErr};
ghost use Rattle.std.specs.Io.{WritesAtMost};
ghost use Rattle.std.specs.Io.KnownBytes.{Keeps, WriteAppends};
ghost use Rattle.whole_file.specs.declared.place.Stage.{Stage};
ghost use Rattle.whole_file.specs.Writers.{place_of, has_failed};

use crate::{Place, Stage};
use std::io::{ErrorKind, Result, Write};

/// A writer that replaces a file whole. The file is touched at the first write at the earliest, and changes in one
/// step, at the flush; only where no new file may be made beside it, it is emptied at the first write and written in
/// place.
#[derive(Drop)]
pub struct WholeFile<P> {
    place: P,
    failed: bool,
}

impl<P: Place> WholeFile<P> {
    pub fn new(place: P) -> WholeFile<P>
        ensures place { place_of result ≡ place }
        ensures failed { has_failed result ≡ false }
    {
        WholeFile {
            place,
            failed: false,
        }
    }

    pub fn place(&self) -> &P
        ensures { result.now ≡ place_of self.now }
    {
        &self.place
    }

    /// Opens what is written to.
    fn open(&mut self) -> Result<()>
        ensures open { OnOk result (P.stage (place_of self.new) ≢ Stage.Closed) }
        ensures failed { OnErr result (P.stage (place_of self.new) ≢ Stage.Beside) }
        ensures written { P.written (place_of self.new) ≡ P.written (place_of self.old) }
        ensures whole { P.stage (place_of self.new) ≢ Stage.InPlace
            → P.shown (place_of self.new) ≡ P.shown (place_of self.old) }
        ensures refused { P.stage (place_of self.old) ≡ Stage.Closed → P.stage (place_of self.new) ≡ Stage.InPlace
            → IfSome (P.allows (place_of self.old)) (λ allowed. allowed ≡ false) }
    {
        if self.place.stage() != Stage::Closed {
            return Ok(());
        }
        if self.place.create()? {
            return Ok(());
        }
        self.place.open_in_place()
    }
}

impl<P: Place> WholeFile<P> {
    /// Writes some bytes from the front of `bytes`, and opens what they go to where nothing is open.
    fn write_some(&mut self, bytes: &[u8]) -> Result<usize>
        ensures bound { WritesAtMost result bytes.now }
        ensures bytes { WriteAppends (P.written (place_of self.old)) (P.written (place_of self.new)) result bytes.now }
        ensures whole { P.stage (place_of self.new) ≢ Stage.InPlace
            → P.shown (place_of self.new) ≡ P.shown (place_of self.old) }
        ensures refused { P.stage (place_of self.old) ≡ Stage.Closed → P.stage (place_of self.new) ≡ Stage.InPlace
            → IfSome (P.allows (place_of self.old)) (λ allowed. allowed ≡ false) }
    {
        self.open()?;
        self.place.write(bytes)
    }

    /// Puts what was written in the file's place, once it is on the disk.
    fn put_in_place(&mut self) -> Result<()>
        requires beside { P.stage (place_of self.old) ≡ Stage.Beside }
        ensures written { P.written (place_of self.new) ≡ P.written (place_of self.old) }
        ensures replaced { OnOk result (P.shown (place_of self.new) ≡ P.written (place_of self.old)) }
        ensures one { OnErr result ((P.shown (place_of self.new) ≡ P.shown (place_of self.old))
            ⊎ (P.shown (place_of self.new) ≡ P.written (place_of self.old))) }
    {
        self.place.sync()?;
        self.place.replace()?;
        self.place.sync_folder()
    }

    /// Removes what was begun, and fails from now on.
    fn give_up(&mut self)
        ensures failed { has_failed self.new ≡ true }
        ensures cleared { P.stage (place_of self.new) ≢ Stage.Beside }
        ensures in_place { P.stage (place_of self.new) ≡ Stage.InPlace ↔ P.stage (place_of self.old) ≡ Stage.InPlace }
        ensures shown { P.shown (place_of self.new) ≡ P.shown (place_of self.old) }
        ensures written { P.written (place_of self.new) ≡ P.written (place_of self.old) }
    {
        self.failed = true;
        if self.place.stage() == Stage::Beside {
            self.place.discard();
        }
    }

    fn check_usable(&self) -> Result<()>
        ensures { IsErr result ↔ has_failed self.now ≡ true }
    {
        if self.failed {
            return Err(ErrorKind::Other.into());
        }
        Ok(())
    }
}

impl<P: Place> Write for WholeFile<P> {
    ghost contents = { λ file. P.written (place_of file) };

    fn write(&mut self, bytes: &[u8]) -> Result<usize>
        ensures bound { WritesAtMost result bytes.now }
        ensures bytes { WriteAppends (P.written (place_of self.old)) (P.written (place_of self.new)) result bytes.now }

        // The file shows what it showed, unless it is written in place, and that is so only where no new file may be
        // made.
        ensures whole { P.stage (place_of self.new) ≢ Stage.InPlace
            → P.shown (place_of self.new) ≡ P.shown (place_of self.old) }
        ensures refused { P.stage (place_of self.old) ≡ Stage.Closed → P.stage (place_of self.new) ≡ Stage.InPlace
            → IfSome (P.allows (place_of self.old)) (λ allowed. allowed ≡ false) }

        // After a failure no new file is left, and every later call fails.
        ensures failed { OnErr result (has_failed self.new ≡ true) }
        ensures cleared { OnErr result (P.stage (place_of self.new) ≢ Stage.Beside) }
        ensures later { has_failed self.old ≡ true → IsErr result }
    {
        let written = match self.check_usable() {
            Ok(()) => self.write_some(bytes),
            Err(error) => Err(error),
        };
        if written.is_err() {
            self.give_up();
        }
        written
    }

    fn flush(&mut self) -> Result<()>
        ensures bytes { Keeps (P.written (place_of self.old)) (P.written (place_of self.new)) }

        // What was written to a new file is what the path shows; where that failed, the path shows it or what it
        // showed.
        ensures replaced { OnOk result (P.stage (place_of self.old) ≡ Stage.Beside
            → P.shown (place_of self.new) ≡ P.written (place_of self.new)) }
        ensures one { (P.shown (place_of self.new) ≡ P.shown (place_of self.old))
            ⊎ (P.shown (place_of self.new) ≡ P.written (place_of self.new)) }
        ensures untouched { P.stage (place_of self.old) ≢ Stage.Beside
            → P.shown (place_of self.new) ≡ P.shown (place_of self.old) }

        ensures failed { OnErr result (has_failed self.new ≡ true) }
        ensures cleared { OnErr result (P.stage (place_of self.new) ≢ Stage.Beside) }
        ensures later { has_failed self.old ≡ true → IsErr result }
    {
        let flushed = match self.check_usable() {
            Ok(()) if self.place.stage() == Stage::Beside => self.put_in_place(),
            Ok(()) => Ok(()),
            Err(error) => Err(error),
        };
        if flushed.is_err() {
            self.give_up();
        }
        flushed
    }
}
