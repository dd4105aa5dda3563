//! Playing plans action by action, and the steps of opening that stand.
ghost use Rattle.std.specs.Prelude.{◌≤◌};

use img_check::check;
use pm_model::{Action, Keep, Memory, NoMemory, Plan};
use pmem_recover::{
    check_entry, next_clear, next_idle, next_lane, next_last, next_slot, next_undo, next_version,
};
use std::alloc::Global;
use std::process::Abort;

pub(crate) const KEEPS: [Keep; 5] = [
    Keep::Nothing,
    Keep::All,
    Keep::Mix(1),
    Keep::Mix(2),
    Keep::Mix(3),
];

// Plays an action that may be played.
fn act<M: Memory>(rt: &impl Abort, memory: &mut M, session: u8, action: Action)
    requires { session ≤ 16 }
{
    match action {
        Action::Store { place, value } => {
            assert!(rt; place.0 < memory.len());
            assert!(rt; memory.is_clean(place));
            memory.act(session, Action::Store { place, value });
        }
        Action::Flush { line } => {
            assert!(rt; line < memory.len() / 8);
            memory.act(session, Action::Flush { line });
        }
        Action::Fence => memory.act(session, Action::Fence),
        Action::Punch { .. } => assert!(rt; false),
    }
}

// Plays so many of a plan's actions.
pub(crate) fn play<M: Memory>(
    rt: &impl Abort,
    memory: &mut M,
    session: u8,
    plan: &mut Plan,
    count: u32,
)
    requires { session ≤ 16 }
{
    for _ in 0..count {
        if let Some(action) = plan.next() {
            act(rt, memory, session, action);
        }
    }
}

// The steps of opening that stand.
#[derive(Clone, Copy)]
pub(crate) enum Step {
    Lanes,
    Slot,
    Last,
    Undo,
    Idle,
    Clear,
    Version,
}

const STEPS: [Step; 7] = [
    Step::Lanes,
    Step::Slot,
    Step::Last,
    Step::Undo,
    Step::Idle,
    Step::Clear,
    Step::Version,
];

// The next plan of a step, on an image whose rules are tried first.
fn next_plan<M: Memory>(
    rt: &impl Abort,
    alloc: Global,
    memory: &M,
    step: Step,
    from: u32,
) -> Result<Option<(u32, Plan)>, NoMemory> {
    let words = memory.choose(Keep::All)?;
    match check_entry(alloc, &words) {
        Ok(()) => match step {
            Step::Lanes => next_lane(alloc, memory, from),
            Step::Slot => next_slot(alloc, memory, from),
            Step::Last => next_last(alloc, memory, from),
            Step::Undo => next_undo(alloc, memory, from),
            Step::Idle => next_idle(alloc, memory, from),
            Step::Clear => next_clear(alloc, memory, from),
            Step::Version => next_version(alloc, memory, from),
        },
        Err(_) => panic!(rt; "the image breaks a rule"),
    }
}

// Plays the next plan of a step, and gives its number. `None` where the step is done.
fn mend_next<M: Memory>(
    rt: &impl Abort,
    alloc: Global,
    memory: &mut M,
    step: Step,
    from: u32,
) -> Result<Option<u32>, NoMemory> {
    match next_plan(rt, alloc, memory, step, from)? {
        Some((number, mut plan)) => {
            let count = plan.len();
            play(rt, memory, 0, &mut plan, count);
            Ok(Some(number))
        }
        None => Ok(None),
    }
}

// Makes one step of opening.
pub(crate) fn mend<M: Memory>(
    rt: &impl Abort,
    alloc: Global,
    memory: &mut M,
    step: Step,
) -> Result<(), NoMemory> {
    let mut from = 0;
    for _ in 0..17 {
        let Some(number) = mend_next(rt, alloc, memory, step, from)? else {
            return Ok(());
        };
        assert!(rt; number < 16);
        from = number + 1;
    }
    Ok(())
}

// Makes all steps of opening on an image of one segment, which is sound then.
pub(crate) fn open<M: Memory>(
    rt: &impl Abort,
    alloc: Global,
    memory: &mut M,
) -> Result<(), NoMemory> {
    for step in STEPS {
        mend(rt, alloc, memory, step)?;
    }
    let words = memory.choose(Keep::All)?;
    assert!(rt; is_sound(rt, alloc, &words));
    Ok(())
}

// Whether the soundness check finds no fault in an image of one segment.
pub(crate) fn is_sound(rt: &impl Abort, alloc: Global, words: &[u64]) -> bool {
    assert!(rt; words.len() == 32768);
    check(alloc, words).is_ok()
}
