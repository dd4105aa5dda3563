// What an array reads, and what its growth keeps through each power cut, whatever is played beside it.
ghost use Rattle.std.specs.Prelude.{◌≡◌, ℕ, ◌<◌, List};
ghost use Rattle.pm_model.specs.declared.action.Action.{Action};
ghost use Rattle.pm_model.specs.Changes.{Survives};
ghost use Rattle.image_layout.specs.Arrays.{array_rule, capacity, capacity_of, place_of};
ghost use Rattle.image_layout.specs.Checks.{Keeps};
ghost use Rattle.heap_palloc.specs.Index.{HeapIndex, IsIndexOf};
ghost use Rattle.seg_array.specs.Calls.{IsTableArray, MayGoOn, MayPlanGrowth};
ghost use Rattle.seg_array.specs.Changes.{growth};
ghost use Rattle.seg_array.specs.Growth.{Growth};
ghost use Rattle.seg_array.specs.Shown.{HasSameHeader};

/// The numbers of an array: how many words its chunks have, so many of them. It has 12 at most.
pub fn limits_law()
    ensures few { (capacity_of 0 ≡ 0) × (capacity_of 1 ≡ 512) × (capacity_of 2 ≡ 1536) }
    ensures doubling { (capacity_of 5 ≡ 15872) × (capacity_of 6 ≡ 32256) × (capacity_of 7 ≡ 48640) }
    ensures most { capacity_of 12 ≡ 130560 }
{}

/// What is read of an array: where the count and the pointers of its header are the same, its rule holds, and no word
/// of it moved.
pub fn array_law()
    ensures rule { (old new : List ℕ) (header : ℕ) →
        HasSameHeader old new header → Keeps old (array_rule header) → Keeps new (array_rule header) }
    ensures places { (old new : List ℕ) (header : ℕ) → HasSameHeader old new header → Keeps old (array_rule header) →
        (index : ℕ) → index < capacity old header → place_of new header index ≡ place_of old header index }
{}

/// The arrays of a published table may be planned to grow, whatever a power cut left half done: where the image keeps
/// the rules that every image keeps, and its owner words are apart.
pub fn table_array_law()
    ensures { (words : List ℕ) (index : HeapIndex) (lane table header : ℕ) →
        IsTableArray words lane table header → IsIndexOf words index → MayPlanGrowth words index lane header }
{}

/// A growth: the lane mended, each cut has the capacity before it, or the capacity after it and new words of 0. After
/// its last action it is the capacity after, and the next growth may be planned.
pub fn growth_law()
    ensures survives { (g : Growth) → Survives (growth g) }
    ensures again { (base : List ℕ) (old new : HeapIndex) (lane header : ℕ) (plan : List Action) →
        MayPlanGrowth base old lane header → MayGoOn base old new lane header plan }
{}
