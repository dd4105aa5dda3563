// Playing plans.
ghost use Rattle.std.specs.Prelude.{◌≡◌, ℕ, ◌≤◌, [], List, length};
ghost use Rattle.pm_model.specs.Device.{IsClean};
ghost use Rattle.pm_model.specs.Plans.{Part, IsPlan, finished, plan_of};

use pm_model::{Memory, Plan, play};

/// Plays all that is left of a plan on a memory of which every word is clean, and gives how many actions that was.
/// `bench/heap.sh` counts by its name what it costs.
#[inline(never)]
pub fn play_whole<M: Memory>(memory: &mut M, session: u8, plan: &mut Plan) -> u32
    requires session { session ≤ 16 }
    requires clean { (w : ℕ) → IsClean (M.device memory.old) w }
    requires planned { (parts : List Part) × (plan.old.left ≡ plan_of parts)
        × IsPlan (length (M.device memory.old).cached) parts }
    ensures words { (parts : List Part) → plan.old.left ≡ plan_of parts
        → IsPlan (length (M.device memory.old).cached) parts →
        (M.device memory.new).cached ≡ finished parts (M.device memory.old).cached }
    ensures clean { (w : ℕ) → IsClean (M.device memory.new) w }
    ensures played { plan.new.left ≡ [] }
    ensures count { result ≡ length plan.old.left }
{
    let count = plan.len();
    play(memory, session, plan, count);
    count
}
