// Who sees a row, in terms of the commits.
ghost use Rattle.std.specs.Prelude.{ℕ, ◌<◌, ◌≤◌, ◌↔◌, List, length, take};
ghost use Rattle.image_layout.specs.SoundRules.{no_commit};
ghost use Rattle.row_stamps.specs.Stamps.{Commit, IsVisible, IsLeft, AreStampsOf};

/// A row is visible exactly where the commits up to the snapshot leave it, and a dead one nowhere.
pub fn stamps_law()
    ensures visible { (commits : List Commit) (row b e snapshot : ℕ) → AreStampsOf commits row b e →
        snapshot ≤ length commits →
        IsVisible b e snapshot ↔ IsLeft (take snapshot commits) row }
    ensures dead { (e snapshot : ℕ) → snapshot < no_commit → IsVisible no_commit e snapshot → ⊥ }
{}
