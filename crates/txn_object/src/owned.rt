// What the owner words of an image say of its transaction objects.
ghost use Rattle.std.specs.Prelude.{◌≡◌, ℕ, List, slice_index};
ghost use Rattle.image_layout.specs.Fixed.{lane_op_at};
ghost use Rattle.heap_palloc.specs.Index.{HeapIndex, IsIndexOf};
ghost use Rattle.txn_object.specs.Calls.{MayPlanExtension};
ghost use Rattle.txn_object.specs.Changes.{IsObjectOf};
ghost use Rattle.txn_object.specs.Extension.{HasSegments};

/// A transaction object has its segments, and its extension may be planned, whatever a power cut left half done: where
/// the image keeps the rules that every image keeps, and its owner words are apart.
pub fn owned_segments_law()
    ensures segments { (words : List ℕ) (object : ℕ) → IsObjectOf words object → HasSegments words object }
    ensures extension { (words : List ℕ) (index : HeapIndex) (object : ℕ) → IsObjectOf words object →
        IsIndexOf words index → slice_index words (lane_op_at object) ≡ 0 → MayPlanExtension words index object }
{}
