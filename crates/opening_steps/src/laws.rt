// The laws of the steps of opening.
ghost use Rattle.std.specs.Prelude.{◌≤◌, ℕ, List, length};
ghost use Rattle.image_layout.specs.SoundRules.{IsIntact};
ghost use Rattle.pm_model.specs.Device.{IsCrashImage};
ghost use Rattle.shown_state.specs.Fits.{BeginFirst};
ghost use Rattle.shown_state.specs.Mending.{version_mending};
ghost use Rattle.shown_state.specs.OpeningParts.{IsImage, StepKeeps, opening_plan};
ghost use Rattle.shown_state.specs.Recoverable.{IsRecoverable};
ghost use Rattle.shown_state.specs.StepLaws.{
  AreMended,
  ClearsKeep,
  ClosesKeep,
  LanesKeep,
  LastKeeps,
  OpensStill,
  SlotKeeps,
  TextsKeep,
  UndosKeep,
  VersionKeeps,
};
ghost use Rattle.opening_steps.specs.QuietImages.{IsQuiet, LeavesQuiet, opened_up_to};

/// A law for proofs: each cut of the mending of a lane at work keeps what fits together, and shows the same; behind it
/// the lane is idle. An allocation whose owner's word names the block is ended, another is taken back, and a freeing is
/// ended.
pub fn lanes_law()
    ensures { LanesKeep }
{}

/// A law for proofs: so does each cut of the freeing of a block of which no structure was made: that of a table that
/// was being created, which the table slot at the table count names, and that of a text that was being added, which
/// the dictionary slot at a column's length names. Lane 0 notes the block; then its slot is null, and its mark is
/// cleared; and a small page without a block is free. Behind it the slot is null.
pub fn slots_law()
    ensures table { SlotKeeps }
    ensures texts { TextsKeep }
{}

/// A law for proofs: so does each cut of the storing of the last commit's number; behind it the last number is that of
/// the last commit.
pub fn last_number_law()
    ensures { LastKeeps }
{}

/// A law for proofs: so does each cut of the taking back of a transaction that is open and has no commit word. First,
/// in any order, the stamps that are no commit's are taken back and the bounds of tables rise above the rows that it
/// created; then its object is closed, behind which it isn't undecided.
pub fn undoing_law()
    ensures { UndosKeep }
{}

/// A law for proofs: so does each cut of the closing of the object of a committed transaction, and of the clearing of
/// the entries and the commit word of a closed one.
pub fn objects_law()
    ensures closes { ClosesKeep }
    ensures clears { ClearsKeep }
{}

/// A law for proofs: so does each cut of the step from version 1 to version 2, behind which the version is 2: first the
/// block of each table says how many columns stand in it, which are all, and then the version is stored. An intact
/// image meets what this asks, one of version 1 where what version 2 reads beside it is 0.
pub fn version_step_law()
    ensures step { VersionKeeps }
    ensures intact { (words : List ℕ) → IsImage words → IsIntact words → BeginFirst words
        → StepKeeps AreMended version_mending words }
{}

/// The law of opening an image that fits together, where no split is logged; lanes, transactions, and a table or texts
/// that are half made may be in any state that fits, and the version either one. Opening such an image goes on to its
/// end, where it is sound and shows the same. A power cut after any of the actions leaves such an image again, which
/// shows the same: so opening may be cut any number of times. An intact image is such an image, one of version 1 where
/// what version 2 reads beside it is 0.
pub fn quiet_opening_law()
    ensures opens { (words : List ℕ) → IsQuiet words → OpensStill words }
    ensures cuts { (words : List ℕ) (k : ℕ) (image : List ℕ) → IsQuiet words → k ≤ length (opening_plan words) →
        IsCrashImage (opened_up_to words k) image → LeavesQuiet words image }
    ensures recovers { (words : List ℕ) → IsQuiet words → IsRecoverable words }
    ensures intact { (words : List ℕ) → IsImage words → IsIntact words → BeginFirst words → IsQuiet words }
{}
