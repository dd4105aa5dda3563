// What an object's words show through each power cut, whatever is played beside the plan.
ghost use Rattle.std.specs.Prelude.{◌≡◌, ◌≢◌, ◌⊎◌, ◌↔◌, ℕ, ◌+◌, ◌<◌, ◌≤◌, Bool, IsTrue, List, Some, length, slice_get, slice_index};
ghost use Rattle.image_layout.specs.Fixed.{state_at, entry_at};
ghost use Rattle.pm_model.specs.Changes.{Survives};
ghost use Rattle.pm_model.specs.Device.{IsBetween};
ghost use Rattle.pm_model.specs.Plans.{EachCut, footprint, one_store, plan_of, unless_empty, words_after};
ghost use Rattle.txn_object.specs.declared.entry.Entry.{Entry};
ghost use Rattle.txn_object.specs.Changes.{IsSpelt, NewEntry, Retirement};
ghost use Rattle.txn_object.specs.Entries.{entry_word, entry_of};
ghost use Rattle.stage_object.specs.Changes.{beginning, entering, entry_parts, retiring, MayBeRetired, IsRetiringBy, IsRetiredBy, ClearsAll, ClearsCommit, no_transaction};
ghost use Rattle.txn_object.specs.Object.{begin_parts};
ghost use Rattle.stage_object.specs.Object.{entries_in, free_entries_in, clear_part, retire_parts, retire_length};
ghost use Rattle.stage_object.specs.Shown.{Shows, NoEntryFollowsZero, IsCleared, HasSameEntries};

/// The entries of an object, word by word.
pub fn entries_law()
    ensures spelt { (entry : Entry) → IsSpelt entry → entry_of (entry_word entry) ≡ entry }
    ensures most { (words : List ℕ) (object : ℕ) → length (entries_in words object) ≤ 60 }
    ensures set { (words : List ℕ) (object nth : ℕ) →
        nth < length (entries_in words object) → slice_index words (entry_at object nth) ≢ 0 }
    ensures each { (words : List ℕ) (object nth : ℕ) → nth < length (entries_in words object) →
        slice_get (entries_in words object) nth ≡ Some (entry_of (slice_index words (entry_at object nth))) }
    ensures zero { (words : List ℕ) (object : ℕ) → length (entries_in words object) < 60 →
        slice_index words (entry_at object (length (entries_in words object))) ≡ 0 }

    // They depend on the object's entry words alone.
    ensures same { (old new : List ℕ) (object : ℕ) →
        HasSameEntries old new object → entries_in new object ≡ entries_in old object }

    // Where none follows a 0, the other words of the object's 60 are free.
    ensures rest { (words : List ℕ) (object nth : ℕ) → NoEntryFollowsZero words object →
        length (entries_in words object) ≤ nth → nth < 60 → slice_index words (entry_at object nth) ≡ 0 }
    ensures free { (words : List ℕ) (object : ℕ) → NoEntryFollowsZero words object →
        free_entries_in words object + length (entries_in words object) ≡ 60 }
{}

/// A begin: at each cut the words are as before, or the object is open and its entries are as before. After its last
/// action it is open.
pub fn begin_law()
    ensures survives { (object : ℕ) → Survives (beginning object) }
    ensures writes { (object w : ℕ) → IsTrue (footprint (plan_of (begin_parts object)) w) ↔ (w ≡ state_at object) }
{}

/// An entry: at each cut the words are as before, or the transaction has one entry more. After its last action it has
/// it, at its place, and the next one may be entered.
pub fn entry_law()
    ensures survives { (n : NewEntry) → Survives (entering n) }
    ensures writes { (n : NewEntry) (w : ℕ) →
        IsTrue (footprint (plan_of (entry_parts n)) w) ↔ (w ≡ entry_at n.object n.nth) }
{}

/// A retire, for a plan that ends with it: until its first part is fenced the words are the old ones or the object is
/// idle, and from there on it is idle whatever its entries are. After its last part they and the commit word are 0.
pub fn retire_law()
    ensures survives { (r : Retirement) → Survives (retiring r) }
    ensures length { (object entries : ℕ) (word : Bool) →
        length (plan_of (retire_parts object entries word)) ≡ retire_length entries word }
    ensures writes { (object entries w : ℕ) (word : Bool) →
        IsTrue (footprint (plan_of (retire_parts object entries word)) w) ↔
        ((w ≡ state_at object) ⊎ IsCleared object entries word w) }

    // Of its two parts: the first is done or not begun, and from there on the object is idle.
    ensures first { (object : ℕ) (base image : List ℕ) →
        IsBetween base (words_after (one_store (state_at object) 0) base) image →
        (image ≡ base) ⊎ (image ≡ words_after (one_store (state_at object) 0) base) }
    ensures idle { (r : Retirement) (base : List ℕ) → MayBeRetired base r →
        EachCut (IsRetiringBy r base) (unless_empty (clear_part r.object r.entries r.word))
        (words_after (one_store (state_at r.object) 0) base) }

    // Where no fewer entries are cleared than the transaction has, none is left.
    ensures shows { (r : Retirement) (old words : List ℕ) →
        ClearsAll old r → IsRetiredBy r old words → ClearsCommit old r → Shows words r.object no_transaction }
    ensures empty { (r : Retirement) (old words : List ℕ) (nth : ℕ) →
        ClearsAll old r → IsRetiredBy r old words → NoEntryFollowsZero old r.object → nth < 60 →
        slice_index words (entry_at r.object nth) ≡ 0 }
{}
