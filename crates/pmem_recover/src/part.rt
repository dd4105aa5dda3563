// A part of several changes, of which only the needed ones are stored.
ghost use Rattle.std.specs.Prelude.{◌≡◌, ◌+◌, ◌*◌, ◌^◌, ◌<◌, ◌≤◌, ◌++◌, ◌∷◌, All, IfOk, length, take, drop};
ghost use Rattle.pm_model.specs.Plans.{part_actions, plan_of, unless_empty, words_after};
ghost use Rattle.pm_model.specs.Needed.{needed_stores, needed_parts};
ghost use Rattle.pmem_recover.specs.Changes.{change_part, change_parts};

use crate::change::{WordChange, word_after};
use pm_model::{Action, Memory, NoMemory, Plan};
use std::alloc::Global;
use std::collections::BTreeSet;

/// Adds a part with those of these changes that are needed once the earlier ones were made, where any is. It takes at
/// most two actions for each change, and one more.
pub(crate) fn push_part<M: Memory>(
    alloc: Global,
    plan: &mut Plan,
    mem: &M,
    earlier: &[WordChange],
    part: &[WordChange],
) -> Result<(), NoMemory>
    requires few { length part.now < 2 ^ 31 }
    requires room { 2 * length part.now < plan.old.spare }
    requires in_image { All (λ change. change.place.0 < length (M.device mem.now).cached) part.now }
    ensures left { IfOk result (λ _.
        plan.new.left ≡ plan.old.left
        ++ plan_of (unless_empty (needed_stores (words_after (change_part earlier.now) (M.device mem.now).cached)
        (change_part part.now)))) }
    ensures spare { IfOk result (λ _. plan.old.spare ≤ plan.new.spare + 2 * length part.now + 1) }
{
    let needed = needed(alloc, mem, earlier, part)?;
    if !needed.is_empty() {
        push_stores(plan, &needed);
        plan.end_part(needed.len() as u32);
    }
    Ok(())
}

/// Adds a part with those of the first changes that are needed, and then a part for each other change that is needed
/// once those before it were made.
pub(crate) fn push_parts<M: Memory>(
    alloc: Global,
    plan: &mut Plan,
    mem: &M,
    changes: &[WordChange],
    first: usize,
) -> Result<(), NoMemory>
    requires first { first ≤ length changes.now }
    requires few { length changes.now < 2 ^ 30 }
    requires room { 3 * length changes.now < plan.old.spare }
    requires in_image { All (λ change. change.place.0 < length (M.device mem.now).cached) changes.now }
    ensures { IfOk result (λ _. plan.new.left ≡ plan.old.left
        ++ plan_of (needed_parts (M.device mem.now).cached (change_part (take first changes.now)
        ∷ change_parts (drop first changes.now)))) }
{
    push_part(alloc, plan, mem, &[], &changes[..first])?;
    for done in first..changes.len() {
        let change = changes[done];
        if word_after(mem, &changes[..done], change.place) != change.value {
            // Each change is a part by itself: it is durable before the next one is begun.
            plan.push_store(change.place, change.value);
        }
    }
    Ok(())
}

// Of several changes of one word the last one, and of those the ones that change their word once the earlier ones were
// made.
fn needed<M: Memory>(
    alloc: Global,
    mem: &M,
    earlier: &[WordChange],
    part: &[WordChange],
) -> Result<Vec<WordChange>, NoMemory>
    requires in_image { All (λ change. change.place.0 < length (M.device mem.now).cached) part.now }
    ensures needed { IfOk result (λ kept.
        change_part kept.items ≡ needed_stores (words_after (change_part earlier.now) (M.device mem.now).cached)
        (change_part part.now)) }
    ensures few { IfOk result (λ kept. length kept.items ≤ length part.now) }
{
    let mut stored = BTreeSet::new(alloc);
    let mut kept = Vec::with_capacity(alloc, part.len())?;
    for done in 0..part.len() {
        let change = part[part.len() - 1 - done];
        let is_last = stored.insert(change.place.0)?;
        if is_last && word_after(mem, earlier, change.place) != change.value {
            kept.push_reserved(change);
        }
    }
    kept.reverse();
    Ok(kept)
}

// Adds the stores of these changes.
fn push_stores(plan: &mut Plan, changes: &[WordChange])
    requires { length changes.now ≤ plan.old.spare }
    ensures left { plan.new.left ≡ plan.old.left ++ change_part changes.now }
    ensures spare { plan.new.spare + length changes.now ≡ plan.old.spare }
{
    for change in changes {
        plan.push(Action::Store {
            place: change.place,
            value: change.value,
        });
    }
}
