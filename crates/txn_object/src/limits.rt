// How large a transaction may be.
ghost use Rattle.std.specs.Prelude.{◌≡◌, ℕ, ◌+◌, ◌*◌, ◌≤◌, List, length};
ghost use Rattle.image_layout.specs.Objects.{ready_count, entry_places};
ghost use Rattle.txn_object.specs.Object.{entries_in};
ghost use Rattle.txn_object.specs.Shown.{HasObject};

/// The limits of a transaction: 60 entries stand in its object and 255 in each ready segment, of which there are at
/// most 32. So it has at most 8,220 entries, one for each row that it creates or ends, and with all its segments places
/// for as many.
pub fn limits_law()
    ensures places { (words : List ℕ) (object : ℕ) →
        length (entry_places words object) ≡ 60 + 255 * ready_count words object }
    ensures segments { (words : List ℕ) (object : ℕ) → HasObject words object → ready_count words object ≤ 32 }
    ensures writes { (words : List ℕ) (object : ℕ) → HasObject words object → length (entries_in words object) ≤ 8220 }
    ensures all { (words : List ℕ) (object : ℕ) → ready_count words object ≡ 32 →
        length (entry_places words object) ≡ 8220 }
{}
