ghost use Rattle.std.specs.Prelude.{◌≡◌, ◌≢◌, ℕ, List, Bool, true, IfOk, IfSome, OnOk, OnErr};
ghost use Rattle.std.specs.declared.option.Option.{Option};
ghost use Rattle.std.specs.Io.{WritesAtMost};
ghost use Rattle.std.specs.Io.KnownBytes.{WriteAppends};
ghost use Rattle.whole_file.specs.declared.place.Stage.{Stage};

use std::io::Result;

/// Where the bytes go that are written.
#[derive(Clone, Copy, Debug, PartialEq, Eq)]
pub enum Stage {
    /// Nowhere: no file is open.
    Closed,
    /// To a new file beside the file.
    Beside,
    /// To the file itself.
    InPlace,
}

/// A file in its folder, by the calls that replace it.
pub trait Place {
    // The bytes that a reader finds at the path, where the place tells them and a file is there.
    ghost shown: { Self → Option (List ℕ) };

    // The bytes that were written so far, where the place tells them.
    ghost written: { Self → Option (List ℕ) };

    ghost stage: { Self → Stage };

    // Whether every written byte is on the disk.
    ghost synced: { Self → Bool };

    // Whether a new file may be made beside the file, where the place tells it.
    ghost allows: { Self → Option Bool };

    fn stage(&self) -> Stage
        ensures { result ≡ stage self.now };

    /// Makes an empty new file beside the file, which is open from then on. `Ok(false)` says that none may be made
    /// there.
    fn create(&mut self) -> Result<bool>
        requires closed { stage self.old ≡ Stage.Closed }
        ensures allowed { IfOk result (λ made. IfSome (allows self.old) (λ allowed. made ≡ allowed)) }
        ensures made { IfOk result (λ made. made ≡ true → stage self.new ≡ Stage.Beside) }
        ensures closed { IfOk result (λ made. made ≢ true → stage self.new ≡ Stage.Closed) }
        ensures failed { OnErr result (stage self.new ≡ Stage.Closed) }
        ensures shown { shown self.new ≡ shown self.old }
        ensures written { written self.new ≡ written self.old };

    /// Empties the file itself, or makes it, and opens it.
    fn open_in_place(&mut self) -> Result<()>
        requires closed { stage self.old ≡ Stage.Closed }
        ensures open { OnOk result (stage self.new ≡ Stage.InPlace) }
        ensures failed { OnErr result (stage self.new ≡ Stage.Closed) }
        ensures kept { OnErr result (shown self.new ≡ shown self.old) }
        ensures written { written self.new ≡ written self.old };

    /// Writes some bytes from the front of `bytes` to the file that is open.
    fn write(&mut self, bytes: &[u8]) -> Result<usize>
        requires open { stage self.old ≢ Stage.Closed }
        ensures bound { WritesAtMost result bytes.now }
        ensures bytes { WriteAppends (written self.old) (written self.new) result bytes.now }
        ensures stage { stage self.new ≡ stage self.old }
        ensures shown { stage self.old ≡ Stage.Beside → shown self.new ≡ shown self.old };

    /// Flushes what was written to the disk.
    fn sync(&mut self) -> Result<()>
        ensures synced { OnOk result (synced self.new ≡ true) }
        ensures stage { stage self.new ≡ stage self.old }
        ensures shown { shown self.new ≡ shown self.old }
        ensures written { written self.new ≡ written self.old };

    /// Puts the new file into the file's place, in one step.
    fn replace(&mut self) -> Result<()>
        requires beside { stage self.old ≡ Stage.Beside }
        requires synced { synced self.old ≡ true }
        ensures replaced { OnOk result (shown self.new ≡ written self.old) }
        ensures in_place { OnOk result (stage self.new ≡ Stage.InPlace) }
        ensures failed { OnErr result (shown self.new ≡ shown self.old) }
        ensures beside { OnErr result (stage self.new ≡ Stage.Beside) }
        ensures written { written self.new ≡ written self.old };

    /// Flushes the folder to the disk, and with it the name of the new file.
    fn sync_folder(&mut self) -> Result<()>
        ensures stage { stage self.new ≡ stage self.old }
        ensures shown { shown self.new ≡ shown self.old }
        ensures written { written self.new ≡ written self.old };

    /// Removes the new file.
    fn discard(&mut self)
        requires beside { stage self.old ≡ Stage.Beside }
        ensures closed { stage self.new ≡ Stage.Closed }
        ensures shown { shown self.new ≡ shown self.old }
        ensures written { written self.new ≡ written self.old };
}
