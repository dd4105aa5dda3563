ghost use Rattle.std.specs.Prelude.{◌≡◌, ◌+◌, ◌<◌, ◌↔◌, ◌++◌, [], ◌∷◌, IsTrue};
ghost use Rattle.pm_model.specs.Plans.{store};
ghost use Rattle.image_layout.specs.SoundRules.{no_commit};
ghost use Rattle.row_stamps.specs.Stamps.{IsVisible};

use pm_model::{Action, NO_COMMIT, Place, Plan};

/// Whether a reader of the first `snapshot` commits sees a row that commit `b` created and commit `e` ended, each 0
/// where none did.
pub fn visible(b: u64, e: u64, snapshot: u64) -> bool
    ensures { IsTrue result ↔ IsVisible b e snapshot }
{
    1 <= b && b <= snapshot && (e == 0 || snapshot < e)
}

/// Adds a store of commit number `k` to a row's stamp at `place`. It takes no memory, and ends no part.
pub fn push_stamp(plan: &mut Plan, place: Place, k: u64)
    requires { 0 < plan.old.spare }
    ensures left { plan.new.left ≡ plan.old.left ++ store place.0 k ∷ [] }
    ensures spare { plan.new.spare + 1 ≡ plan.old.spare }
{
    plan.push(Action::Store { place, value: k });
}

/// Adds a store of all ones to a row's first stamp at `place`: no reader ever sees the row. It takes no memory, and
/// ends no part.
pub fn push_dead(plan: &mut Plan, place: Place)
    requires { 0 < plan.old.spare }
    ensures left { plan.new.left ≡ plan.old.left ++ store place.0 no_commit ∷ [] }
    ensures spare { plan.new.spare + 1 ≡ plan.old.spare }
{
    push_stamp(plan, place, NO_COMMIT);
}
