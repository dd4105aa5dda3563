// Laws whose premises are met over a formatted image, or over one that is written out, each the contract of a function
// that does nothing.
ghost use Rattle.std.specs.Prelude.{◌≡◌, ℕ, ◌<◌, ◌≤◌, Contains, Some, [], List, length};
ghost use Rattle.image_layout.specs.declared.layout.TheConstants.{OBJECTS};
ghost use Rattle.image_layout.specs.Fresh.{fresh_words};
ghost use Rattle.image_layout.specs.Owners.{lane_targets, owner_words};
ghost use Rattle.image_layout.specs.SoundRules.{IsIntact, IsSound, fault};
ghost use Rattle.image_layout.specs.Tables.{array_headers};
ghost use Rattle.mv_model.specs.declared.reply.Entry.{Entry as Answered};
ghost use Rattle.mv_model.specs.declared.shape.Column.{Column};
ghost use Rattle.mv_model.specs.Consistent.{IsConsistent};
ghost use Rattle.mv_model.specs.History.{IsLegal, state_after};
ghost use Rattle.heap_palloc.specs.Index.{HeapIndex, IsIndexOf};
ghost use Rattle.seg_array.specs.Calls.{IsTableArray, MayPlanGrowth};
ghost use Rattle.txn_object.specs.declared.entry.Entry.{Entry};
ghost use Rattle.txn_object.specs.Changes.{begun, with_entry, no_transaction};
ghost use Rattle.txn_object.specs.Changes.{ClearsAll, ClearsCommit, IsBeginBefore, IsEntryBefore, IsSpelt};
ghost use Rattle.txn_object.specs.Shown.{MayAddEntry, Shows};
ghost use Rattle.txn_object.specs.Calls.{MayPlanExtension};
ghost use Rattle.image_rules.specs.BuiltOwners.{HasNoTexts, built_owner_words};
ghost use Rattle.shown_state.specs.CommitLaws.{two_commit_image};
ghost use Rattle.shown_state.specs.Fits.{BeginFirst};
ghost use Rattle.shown_state.specs.LogicalState.{logical_state};
ghost use Rattle.shown_state.specs.OpeningParts.{IsImage};
ghost use Rattle.opening_steps.specs.QuietImages.{IsQuiet};
ghost use Rattle.catalog.specs.Changes.{IsCreationOn};
ghost use Rattle.catalog.specs.Entries.{HasNames};
ghost use Rattle.catalog.specs.Shown.{IsCreated};
ghost use Rattle.law_instances.specs.FirstVersion.{first_version_image, OneRowIsShown};
ghost use Rattle.law_instances.specs.FirstTable.{HasRoom, MayGrowFirst, PublishesFirst, ShowsFirst, first_table, first_words, second_table};
ghost use Rattle.law_instances.specs.OneTransaction.{IsFresh, first_entry, one_retired};
ghost use Rattle.law_instances.specs.OneTransaction.{begun_words, entered_words, retired_words};

/// One transaction with one entry, in any object of a formatted image: what the laws of a begin, of an entry and of a
/// retire ask is met, each over the words that the plan before it leaves, and the next transaction may have its first
/// entry.
pub fn transaction_law()
    ensures begins { (segments object : ℕ) → IsFresh segments object →
        IsBeginBefore (fresh_words segments) object no_transaction [] }
    ensures enters { (segments object : ℕ) (entry : Entry) → IsFresh segments object → IsSpelt entry →
        IsEntryBefore (begun_words segments object) (first_entry object entry) (begun no_transaction) [] }
    ensures entered { (segments object : ℕ) (entry : Entry) → IsFresh segments object → IsSpelt entry →
        Shows (entered_words segments object entry) object (with_entry (begun no_transaction) entry) }
    ensures clears { (segments object : ℕ) (entry : Entry) → IsFresh segments object → IsSpelt entry →
        ClearsAll (entered_words segments object entry) (one_retired object) }
    ensures commit { (segments object : ℕ) (entry : Entry) → IsFresh segments object → IsSpelt entry →
        ClearsCommit (entered_words segments object entry) (one_retired object) }
    ensures over { (segments object : ℕ) (entry : Entry) → IsFresh segments object → IsSpelt entry →
        Shows (retired_words segments object entry) object no_transaction }
    ensures again { (segments object : ℕ) (entry other : Entry) →
        IsFresh segments object → IsSpelt entry → IsSpelt other →
        MayAddEntry (retired_words segments object entry) object 0 other }
{}

/// The first table of a formatted image, of up to 5 columns: what the law of a creation asks is met. After its last
/// action it is the one table that the image shows and publishes, and the array of its rows' creators may be planned to
/// grow.
pub fn creation_law()
    ensures asked { (segments : ℕ) (name : List ℕ) (columns : List Column) → HasRoom segments columns →
        IsCreationOn (fresh_words segments) (first_table name columns) }
    ensures created { (segments : ℕ) (name : List ℕ) (columns : List Column) → HasRoom segments columns →
        IsCreated (fresh_words segments) (first_table name columns) (first_words segments name columns) }
    ensures shown { (segments : ℕ) (name : List ℕ) (columns : List Column) →
        HasRoom segments columns → HasNames name columns → ShowsFirst segments name columns }
    ensures published { (segments : ℕ) (name : List ℕ) (columns : List Column) →
        HasRoom segments columns → HasNames name columns → PublishesFirst segments name columns }
    ensures grows { (segments : ℕ) (name : List ℕ) (columns : List Column) →
        HasRoom segments columns → MayGrowFirst segments name columns }
{}

/// A formatted image shows a consistent state, and so is each state of a history that is legal from it. So is the state
/// of the image with two commits that is written out.
pub fn consistency_law()
    ensures formatted { (segments : ℕ) → 0 < segments → IsConsistent (logical_state (fresh_words segments)) }
    ensures histories { (segments : ℕ) (entries : List Answered) → 0 < segments →
        IsLegal (logical_state (fresh_words segments)) entries →
        IsConsistent (state_after (logical_state (fresh_words segments)) entries) }
    ensures written { IsConsistent (logical_state two_commit_image) }
{}

/// Images that are written out keep the rules: that of two commits and two columns in extensions is sound; and that of
/// version 1, which shows a table with a row, breaks none but that of the version, and what version 2 reads beside it
/// is 0. So what the laws of opening's step to version 2 ask is met. In the first a lane may allocate one more
/// extension, into the pointer in the last one; and each array of its table, that of its rows' creators among them, may
/// be planned to grow, and each transaction object to be extended; and another table may be created. Its owner words are
/// those that the soundness check tries: its trees keep their rule, and its column of texts has no leaf. Both images are
/// quiet, as the law of opening them asks.
pub fn written_images_law()
    ensures sound { IsSound two_commit_image }
    ensures shown { OneRowIsShown }
    ensures first { fault first_version_image ≡ Some (record { rule = 31; place = 513 }) }
    ensures intact { IsImage first_version_image × IsIntact first_version_image × BeginFirst first_version_image }
    ensures next { Contains (lane_targets two_commit_image) 4680 }
    ensures arrays { (header : ℕ) → Contains (array_headers two_commit_image 2056) header →
        IsTableArray two_commit_image 0 0 header }
    ensures grows { (index : HeapIndex) → IsIndexOf two_commit_image index →
        MayPlanGrowth two_commit_image index 0 2064 }
    ensures extends { (index : HeapIndex) (object : ℕ) → object < OBJECTS → IsIndexOf two_commit_image index →
        MayPlanExtension two_commit_image index object }
    ensures creates { (name : List ℕ) (columns : List Column) → length columns ≤ 5 →
        IsCreationOn two_commit_image (second_table name columns) }
    ensures quiet { IsQuiet two_commit_image × IsQuiet first_version_image }
    ensures no_texts { HasNoTexts two_commit_image }
    ensures owners { built_owner_words two_commit_image ≡ owner_words two_commit_image }
{}
