// Changes of words, each of which is a part of its own.
ghost use Rattle.std.specs.Prelude.{◌≡◌, ◌+◌, ◌*◌, ◌<◌, ◌≤◌, ◌++◌, All, length, slice_index};
ghost use Rattle.pm_model.specs.Plans.{finished, plan_of};
ghost use Rattle.pm_model.specs.Needed.{needed_parts};
ghost use Rattle.pmem_recover.specs.Changes.{change_parts};

use pm_model::{Memory, Place, Plan};

// The actions of a part of one store: the store, a flush and a fence.
pub(crate) const CHANGE_ACTIONS: u32 = 3;

/// The word at a place gets a value.
#[derive(Clone, Copy)]
pub struct WordChange {
    pub place: Place,
    pub value: u64,
}

/// Adds a part for each of these changes that is needed: it changes its word as those before it leave it.
pub(crate) fn push_needed<M: Memory>(plan: &mut Plan, mem: &M, changes: &[WordChange])
    requires room { 3 * length changes.now ≤ plan.old.spare }
    requires in_image { All (λ change. change.place.0 < length (M.device mem.now).cached) changes.now }
    ensures left { plan.new.left ≡ plan.old.left
        ++ plan_of (needed_parts (M.device mem.now).cached (change_parts changes.now)) }
{
    for done in 0..changes.len() {
        let change = changes[done];
        if word_after(mem, &changes[..done], change.place) != change.value {
            // Each change is a part by itself: it is durable before the next one is begun.
            plan.push_store(change.place, change.value);
        }
    }
}

/// The word at a place once these changes were made.
pub(crate) fn word_after<M: Memory>(mem: &M, changes: &[WordChange], at: Place) -> u64
    requires { at.0 < length (M.device mem.now).cached }
    ensures { result ≡ slice_index (finished (change_parts changes.now) (M.device mem.now).cached) at.0 }
{
    let mut word = mem.load(at);
    for change in changes {
        if change.place == at {
            word = change.value;
        }
    }
    word
}
