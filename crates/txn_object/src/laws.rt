// What an object's words show through each power cut, whatever is played beside the plan.
ghost use Rattle.std.specs.Prelude.{◌≡◌, ◌↔◌, ℕ, ◌≤◌, ◌<◌, ◌∷◌, ◌++◌, IsTrue, List, length, slice_index};
ghost use Rattle.image_layout.specs.declared.layout.TheConstants.{OBJECTS};
ghost use Rattle.image_layout.specs.Fixed.{last_at, state_at};
ghost use Rattle.image_layout.specs.Objects.{entry_places};
ghost use Rattle.image_layout.specs.SoundRules.{IsIntact};
ghost use Rattle.pm_model.specs.Changes.{Survives};
ghost use Rattle.pm_model.specs.Plans.{Part, EachCut, finished, footprint, plan_of};
ghost use Rattle.heap_palloc.specs.Index.{HeapIndex, IsIndexOf};
ghost use Rattle.txn_object.specs.declared.entry.Entry.{Entry};
ghost use Rattle.txn_object.specs.Calls.{MayPlanExtension};
ghost use Rattle.txn_object.specs.Changes.{begun, beginning, IsBeginBefore, IsSpelt, with_entry, NewEntry, entry_parts, entering, IsEntryBefore, extending, Retirement, ClearsAll, ClearsCommit, no_transaction, retiring, IsObjectPlace, IsRetiredBy, IsOneOf, source_words};
ghost use Rattle.txn_object.specs.Entries.{entry_word, entry_of};
ghost use Rattle.txn_object.specs.Extension.{Extension, HasSegments, MayExtend};
ghost use Rattle.txn_object.specs.Object.{nth_place, begin_parts, NoEntryFollowsZero};
ghost use Rattle.txn_object.specs.Shown.{Transaction, Shows, HasObject, MayAddEntry};
ghost use Rattle.txn_object.specs.Spared.{KeepsObject, SparesObject};

/// A begin: at each cut the words are as before, or the object is open and its entries are as before. After its last
/// action it is open.
pub fn begin_law()
    ensures survives { (object : ℕ) → Survives (beginning object) }
    ensures writes { (object w : ℕ) → IsTrue (footprint (plan_of (begin_parts object)) w) ↔ (w ≡ state_at object) }

    // The same before other parts, which leave the object's words.
    ensures each { (object : ℕ) (t : Transaction) (parts : List Part) (base : List ℕ) →
        IsBeginBefore base object t parts →
        EachCut (IsOneOf object t (begun t)) (begin_parts object ++ parts) base }
    ensures finishes { (object : ℕ) (t : Transaction) (parts : List Part) (base : List ℕ) →
        IsBeginBefore base object t parts → Shows (finished (begin_parts object ++ parts) base) object (begun t) }
{}

/// An entry: at each cut the words are as before, or the transaction has one entry more. After its last action it has
/// it, at its place, and the next one may be entered.
pub fn entry_law()
    ensures spelt { (entry : Entry) → IsSpelt entry → entry_of (entry_word entry) ≡ entry }
    ensures survives { (n : NewEntry) → Survives (entering n) }
    ensures writes { (words : List ℕ) (n : NewEntry) (w : ℕ) →
        IsTrue (footprint (plan_of (entry_parts words n)) w) ↔ (w ≡ nth_place words n.object n.nth) }

    // The same before other parts, which leave the object's words.
    ensures each { (n : NewEntry) (t : Transaction) (parts : List Part) (base : List ℕ) →
        IsEntryBefore base n t parts →
        EachCut (IsOneOf n.object t (with_entry t n.entry)) (entry_parts base n ++ parts) base }
    ensures finishes { (n : NewEntry) (t : Transaction) (parts : List Part) (base : List ℕ) →
        IsEntryBefore base n t parts →
        Shows (finished (entry_parts base n ++ parts) base) n.object (with_entry t n.entry) }
{}

/// An extension: the lane mended, each cut has the ready segments before it, or those after it and new words of 0; the
/// entries stay. After its last action it is the segments after it.
pub fn extension_law()
    ensures survives { (e : Extension) → Survives (extending e) }

    // The next one may be planned too once the object owns its segment.
    ensures half_way { (base : List ℕ) (e : Extension) (index : HeapIndex) →
        MayExtend base e → IsIndexOf (source_words base e) index →
        MayPlanExtension (source_words base e) index e.object }

    // Segments that are blocks of the heap share no word. In an intact image, of either version, an extension may be
    // planned of each object.
    ensures object { (words : List ℕ) (object : ℕ) → IsObjectPlace words object → HasSegments words object →
        HasObject words object }
    ensures intact { (words : List ℕ) (index : HeapIndex) (object : ℕ) →
        object < OBJECTS → IsIntact words → IsIndexOf words index → MayPlanExtension words index object }
{}

/// A retire, for a plan that ends with it: until its first part is fenced the words are the old ones or the object is
/// idle, and from there on it is idle whatever its entries are. After its last part they and the commit word are 0.
pub fn retire_law()
    ensures survives { (r : Retirement) → Survives (retiring r) }

    // Where no fewer entries are cleared than the transaction has, none is left, and the next one may have its first
    // entry.
    ensures shows { (r : Retirement) (old words : List ℕ) →
        ClearsAll old r → IsRetiredBy r old words → ClearsCommit old r → Shows words r.object no_transaction }
    ensures empty { (r : Retirement) (old words : List ℕ) (nth : ℕ) → ClearsAll old r → IsRetiredBy r old words →
        nth < length (entry_places old r.object) → slice_index words (nth_place old r.object nth) ≡ 0 }
    ensures begins { (r : Retirement) (old words : List ℕ) (entry : Entry) →
        ClearsAll old r → IsRetiredBy r old words → IsSpelt entry → MayAddEntry words r.object 0 entry }
{}

/// What an object shows, and its rule, depend on its own words alone, and the rule also on the last number.
pub fn object_law()
    ensures shows { (old new : List ℕ) (object : ℕ) (t : Transaction) →
        KeepsObject old object new → Shows old object t → Shows new object t }
    ensures rule { (old new : List ℕ) (object : ℕ) → KeepsObject old object new →
        slice_index old last_at ≤ slice_index new last_at → HasObject old object → HasObject new object }
    ensures packed { (old new : List ℕ) (object : ℕ) →
        KeepsObject old object new → NoEntryFollowsZero old object → NoEntryFollowsZero new object }
    ensures places { (old new : List ℕ) (object : ℕ) → KeepsObject old object new →
        entry_places new object ≡ entry_places old object }

    // Parts that leave them leave what it shows.
    ensures parts { (words : List ℕ) (object : ℕ) (t : Transaction) (parts : List Part) →
        SparesObject words object parts → Shows words object t → EachCut (λ image. Shows image object t) parts words }
{}
