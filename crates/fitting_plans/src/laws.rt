// The laws of a transaction's plans, and of what their plans allocate.
ghost use Rattle.std.specs.Prelude.{ℕ, [], ◌∷◌, Bool, List};
ghost use Rattle.pm_model.specs.Plans.{EachCut, Part, unless_empty};
ghost use Rattle.shown_state.specs.OpeningParts.{FitsStill};
ghost use Rattle.heap_palloc.specs.Choice.{Choice, choice_parts, Freed, freed_parts};
ghost use Rattle.txn_object.specs.Object.{begin_parts, clear_part, retire_parts};
ghost use Rattle.whole_view.specs.TransactionParts.{entry_parts};
ghost use Rattle.fitting_plans.specs.Allocations.{MayAllocate, MayFree, ShowsStill};
ghost use Rattle.fitting_plans.specs.Transactions.{FitsOrGives, MayBegin, MayClear, MayClose, MayEnter, TakesBack};

/// A law for proofs: each cut of a begin keeps what fits together, and shows the same.
pub fn begin_law()
    ensures { (words : List ℕ) (object : ℕ) → MayBegin words object
        → EachCut (FitsStill words) (begin_parts object) words }
{}

/// A law for proofs: each cut of an entry keeps what fits together; it shows the same, or the same commits and the next
/// row of a table behind the row that the entry says was created.
pub fn entry_law()
    ensures { (words : List ℕ) (object nth word : ℕ) → MayEnter words object nth word
        → EachCut (FitsOrGives words word) (entry_parts words object nth word) words }
{}

/// A law for proofs: each cut of the part in which an undecided transaction is taken back, the first of an abort, keeps
/// what fits together, and shows the same. Where all is taken back then, a retire may follow.
pub fn undo_law()
    ensures { (words : List ℕ) (object : ℕ) (part : Part) → TakesBack words object part
        → EachCut (FitsStill words) (part ∷ []) words }
{}

/// A law for proofs: each cut of a retire, of so many entries and with or without the commit word, keeps what fits
/// together, and shows the same, where nothing of the transaction needs to be undone.
pub fn retire_law()
    ensures { (words : List ℕ) (object count : ℕ) (word : Bool) → MayClose words object
        → EachCut (FitsStill words) (retire_parts words object count word) words }
{}

/// A law for proofs: so does each cut of the clearing of a closed object, of so many entries and with or without the
/// commit word.
pub fn clear_law()
    ensures { (words : List ℕ) (object count : ℕ) (word : Bool) → MayClear words object
        → EachCut (FitsStill words) (unless_empty (clear_part words object count word)) words }
{}

/// A law for proofs: each cut of an allocation, whichever way it goes, and of a freeing shows the same, where the
/// owner's word may be half done. So the parts of a plan in which a block is allocated change nothing that is shown. It
/// isn't said here that such a cut fits together.
pub fn blocks_show_law()
    ensures allocated { (words : List ℕ) (choice : Choice) → MayAllocate words choice
        → EachCut (ShowsStill words) (choice_parts words choice) words }
    ensures freed { (words : List ℕ) (freed : Freed) → MayFree words freed
        → EachCut (ShowsStill words) (freed_parts words freed) words }
{}
