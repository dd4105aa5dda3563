// The step of opening that clears transaction objects.
ghost use Rattle.std.specs.Prelude.{◌≡◌, ◌↔◌, ◌+◌, ◌^◌, ◌<◌, ◌++◌, [], ◌∷◌, IsNone, IfSome, IfOk, length, map};
ghost use Rattle.pm_model.specs.Plans.{plan_of};
ghost use Rattle.image_layout.specs.Checks.{Keeps};
ghost use Rattle.image_layout.specs.EntryRules.{objects_rule};
ghost use Rattle.shown_state.specs.Mending.{clear_mending};
ghost use Rattle.pmem_recover.specs.Changes.{change};
ghost use Rattle.pmem_recover.specs.Steps.{step_parts, IsNext, NoneFrom};

use crate::change::WordChange;
use crate::entries::filled_entries;
use crate::part::push_part;
use pm_model::{Memory, NoMemory, OBJECTS, Place, Plan, commit_word};
use std::alloc::Global;

/// The first object from `from` on with an entry or a commit word that isn't 0, with the plan that clears them: one
/// part with 0 over each. `None` where no such object is left, so from 16 on always.
///
/// An object has at most 8,220 entry words. Where its segments share words, each word is stored once, in the order of
/// its last place among them.
pub fn next_clear<M: Memory>(
    alloc: Global,
    mem: &M,
    from: u32,
) -> Result<Option<(u32, Plan)>, NoMemory>
    requires { Keeps (M.device mem.now).cached objects_rule }
    ensures next { IfOk result (λ found.
        IfSome found (λ next. IsNext (step_parts clear_mending (M.device mem.now).cached) 16 from next.0 next.1.left)) }
    ensures none { IfOk result (λ found.
        IsNone found ↔ NoneFrom (step_parts clear_mending (M.device mem.now).cached) 16 from) }
{
    for number in from..u32::from(OBJECTS) {
        let plan = plan_clear(alloc, mem, number as u8)?;
        if !plan.is_empty() {
            return Ok(Some((number, plan)));
        }
    }
    Ok(None)
}

// Plans the clearing of an object.
fn plan_clear<M: Memory>(alloc: Global, mem: &M, object: u8) -> Result<Plan, NoMemory>
    requires rules { Keeps (M.device mem.now).cached objects_rule }
    requires object { object < 16 }
    ensures { IfOk result (λ plan. plan.left ≡ plan_of (step_parts clear_mending (M.device mem.now).cached object)) }
{
    let filled = filled_entries(alloc, mem, object)?;
    let part = zeros(alloc, &filled, commit_word(object))?;
    let mut plan = Plan::with_room(alloc, 2 * part.len() as u32 + 1)?;
    push_part(alloc, &mut plan, mem, &[], &part)?;
    Ok(plan)
}

// The changes that make the words at these places 0, and then the word at the last place.
fn zeros(alloc: Global, places: &[Place], last: Place) -> Result<Vec<WordChange>, NoMemory>
    requires { length places.now < 2 ^ 30 }
    ensures { IfOk result (λ part. part.items ≡ map (λ at. change at.0 0) places.now ++ change last.0 0 ∷ []) }
{
    let mut part = Vec::with_capacity(alloc, places.len() + 1)?;
    for at in places {
        part.push_reserved(WordChange {
            place: *at,
            value: 0,
        });
    }
    part.push_reserved(WordChange {
        place: last,
        value: 0,
    });
    Ok(part)
}
