// The last steps of opening: the last commit number, and what is left in transaction objects.
ghost use Rattle.std.specs.Prelude.{◌≡◌, ◌≢◌, ◌↔◌, ◌+◌, ◌*◌, ◌<◌, ◌≤◌, ◌&&◌, ◌==◌, not, IsTrue, IsNone, IfSome, IfOk, length, slice_index};
ghost use Rattle.pm_model.specs.Plans.{plan_of};
ghost use Rattle.image_layout.specs.Objects.{is_open, commit_word as commit_word_of, open_commit as open_commit_of, last_commit as last_commit_of};
ghost use Rattle.shown_state.specs.Mending.{last_mending, close_mending};
ghost use Rattle.pmem_recover.specs.Steps.{step_parts, IsNext, NoneFrom};

use crate::change::CHANGE_ACTIONS;
use pm_model::{
    CLOSED, Memory, NoMemory, OBJECTS, OPEN, Plan, commit_word, last_commit, object_state,
};
use std::alloc::Global;

/// The plan by which the last commit number becomes the greatest of itself and the commit words of open objects. It has
/// the number 0; `None` where the number is the greatest already, and from 1 on always.
pub fn next_last<M: Memory>(
    alloc: Global,
    mem: &M,
    from: u32,
) -> Result<Option<(u32, Plan)>, NoMemory>
    ensures next { IfOk result (λ found. IfSome found (λ next.
        IsNext (step_parts (λ number. last_mending) (M.device mem.now).cached) 1 from next.0 next.1.left)) }
    ensures none { IfOk result (λ found.
        IsNone found ↔ NoneFrom (step_parts (λ number. last_mending) (M.device mem.now).cached) 1 from) }
{
    let number = count_commits(mem);
    if from > 0 || mem.load(last_commit()) == number {
        return Ok(None);
    }
    let mut plan = Plan::with_room(alloc, CHANGE_ACTIONS)?;
    // From here on objects with a commit word may be closed: closed before, their commits would be counted no more.
    plan.push_store(last_commit(), number);
    Ok(Some((0, plan)))
}

// The number of commits.
fn count_commits<M: Memory>(mem: &M) -> u64
    ensures { result ≡ last_commit_of (M.device mem.now).cached }
{
    let mut number = mem.load(last_commit());
    for object in 0..OBJECTS {
        number = number.max(open_commit(mem, object));
    }
    number
}

// The commit word of an open object, and 0 of another.
fn open_commit<M: Memory>(mem: &M, object: u8) -> u64
    requires { object < 16 }
    ensures { result ≡ open_commit_of (M.device mem.now).cached object }
{
    if mem.load(object_state(object)) == OPEN {
        mem.load(commit_word(object))
    } else {
        0
    }
}

/// The first object from `from` on that is open and has its commit word, with the plan that closes it: its state
/// becomes 0. `None` where no such object is left, so from 16 on always.
pub fn next_idle<M: Memory>(
    alloc: Global,
    mem: &M,
    from: u32,
) -> Result<Option<(u32, Plan)>, NoMemory>
    ensures next { IfOk result (λ found.
        IfSome found (λ next. IsNext (step_parts close_mending (M.device mem.now).cached) 16 from next.0 next.1.left)) }
    ensures none { IfOk result (λ found.
        IsNone found ↔ NoneFrom (step_parts close_mending (M.device mem.now).cached) 16 from) }
{
    for number in from..u32::from(OBJECTS) {
        let object = number as u8;
        if is_committed(mem, object) {
            let mut plan = Plan::with_room(alloc, CHANGE_ACTIONS)?;
            // Its commit word stands, so its rows are committed whatever comes behind this.
            plan.push_store(object_state(object), CLOSED);
            return Ok(Some((number, plan)));
        }
    }
    Ok(None)
}

// Whether an object is open and has its commit word.
fn is_committed<M: Memory>(mem: &M, object: u8) -> bool
    requires { object < 16 }
    ensures { result ≡ (is_open (M.device mem.now).cached object
        && not (commit_word_of (M.device mem.now).cached object == 0)) }
{
    mem.load(object_state(object)) == OPEN && mem.load(commit_word(object)) != 0
}
