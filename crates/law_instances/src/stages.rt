// That the laws of a stage image's transaction object say something.
ghost use Rattle.std.specs.Prelude.{ℕ};
ghost use Rattle.image_layout.specs.Fresh.{fresh_words};
ghost use Rattle.txn_object.specs.declared.entry.Entry.{Entry};
ghost use Rattle.txn_object.specs.Changes.{IsSpelt};
ghost use Rattle.stage_object.specs.Changes.{ClearsAll, ClearsCommit, MayBeRetired, begun, no_transaction, with_entry};
ghost use Rattle.stage_object.specs.Shown.{HasObject, MayAddEntry, NoEntryFollowsZero, Shows};
ghost use Rattle.law_instances.specs.OneTransaction.{IsFresh, begun_words, one_retired};
ghost use Rattle.law_instances.specs.StageTransaction.{staged_words, unstaged_words};

/// One transaction with one entry, in any object of a stage image: what the laws of a begin, of an entry and of a
/// retire ask is met, each over the words that the plan before it leaves, and the next transaction may have its first
/// entry.
pub fn stage_transaction_law()
    ensures begins { (segments object : ℕ) → IsFresh segments object →
        HasObject (fresh_words segments) object × Shows (fresh_words segments) object no_transaction }
    ensures enters { (segments object : ℕ) (entry : Entry) → IsFresh segments object → IsSpelt entry →
        MayAddEntry (begun_words segments object) object 0 entry }
    ensures begun { (segments object : ℕ) → IsFresh segments object →
        Shows (begun_words segments object) object (begun no_transaction) }
    ensures entered { (segments object : ℕ) (entry : Entry) → IsFresh segments object → IsSpelt entry →
        Shows (staged_words segments object entry) object (with_entry (begun no_transaction) entry) }
    ensures retires { (segments object : ℕ) (entry : Entry) → IsFresh segments object → IsSpelt entry →
        MayBeRetired (staged_words segments object entry) (one_retired object) }
    ensures clears { (segments object : ℕ) (entry : Entry) → IsFresh segments object → IsSpelt entry →
        ClearsAll (staged_words segments object entry) (one_retired object)
        × ClearsCommit (staged_words segments object entry) (one_retired object)
        × NoEntryFollowsZero (staged_words segments object entry) object }
    ensures over { (segments object : ℕ) (entry : Entry) → IsFresh segments object → IsSpelt entry →
        Shows (unstaged_words segments object entry) object no_transaction }
    ensures again { (segments object : ℕ) (entry other : Entry) →
        IsFresh segments object → IsSpelt entry → IsSpelt other →
        MayAddEntry (unstaged_words segments object entry) object 0 other }
{}
