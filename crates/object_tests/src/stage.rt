//! A transaction of the stage: it is opened, filled and retired.
ghost use Rattle.std.specs.Prelude.{◌≡◌, ℕ, List, IfOk, length};
ghost use Rattle.pm_model.specs.Plans.{MayPlay, at_rest};

use pm_model::{Memory, NoMemory, Place, Plain, Plan, play};
use stage_object::{entries, free_entries, plan_begin, push_entry, push_retire, retire_actions};
use std::alloc::Global;
use std::test::Fail;
use txn_object::{Entry, EntryKind};

const CREATED: Entry = Entry {
    kind: EntryKind::Created,
    table: 0,
    row: 7,
};

const ENDED: Entry = Entry {
    kind: EntryKind::Ended,
    table: 3,
    row: 5,
};

// Session 3 begins, enters two rows, and retires them and its commit word.
fn whole_transaction(alloc: Global) -> Result<Plan, NoMemory>
    ensures { IfOk result (λ plan. (words : List ℕ) → length words ≡ 32768 → MayPlay 3 plan.left (at_rest words)) }
{
    let mut plan = Plan::with_room(alloc, 17)?;
    plan.append(plan_begin(alloc, 3)?);
    push_entry(&mut plan, 3, 0, CREATED);
    push_entry(&mut plan, 3, 1, ENDED);
    push_retire(&mut plan, 3, 2, true);
    Ok(plan)
}

// The object's state, its first two entry words, how many are free, how many session 2's object has free, and whether
// the entries are these.
type Seen = (u64, u64, u64, u32, u32, bool);

fn seen<M: Memory>(alloc: Global, memory: &M, wanted: &[Entry]) -> Result<Seen, NoMemory> {
    let list = entries(alloc, memory, 3)?;
    let mut same = list.len() as usize == wanted.len();
    for place in 0..list.len() {
        same = same && wanted.get(place as usize).copied() == Some(list.get(place));
    }
    Ok((
        memory.load(Place(1152)),
        memory.load(Place(1156)),
        memory.load(Place(1157)),
        free_entries(memory, 3),
        free_entries(memory, 2),
        same,
    ))
}

// Plays that plan, and looks at the object after its begin, its entries and its end.
fn play_and_look<M: Memory>(
    alloc: Global,
    memory: &mut M,
    plan: &mut Plan,
) -> Result<(Seen, Seen, Seen), NoMemory>
    requires { MayPlay 3 plan.old.left (M.device memory.old) }
{
    play(memory, 3, plan, 3);
    let begun = seen(alloc, memory, &[])?;
    play(memory, 3, plan, 6);
    let entered = seen(alloc, memory, &[CREATED, ENDED])?;
    play(memory, 3, plan, 8);
    let retired = seen(alloc, memory, &[])?;
    Ok((begun, entered, retired))
}

// Plays it on words of 0.
fn played(alloc: Global) -> Result<(Seen, Seen, Seen), NoMemory> {
    let mut plan = whole_transaction(alloc)?;
    let words = vec![in alloc; 0; 32768]?;
    let mut memory = Plain::new(alloc, words)?;
    let seen = play_and_look(alloc, &mut memory, &mut plan);
    drop(memory);
    drop(plan);
    seen
}

#[test]
fn a_transaction_is_opened_filled_and_retired(rt: HostRuntime) {
    let begun = (1, 0, 0, 60, 60, true);
    let entered = (
        1,
        72_057_594_037_927_943,
        144_115_200_960_757_765,
        58,
        60,
        true,
    );
    let retired = (0, 0, 0, 60, 60, true);
    assert!(rt; played(rt.alloc()) == Ok((begun, entered, retired)));
}

// How many actions a plan has once a row is entered and once it is retired, and its spare room then.
fn plan_lengths(alloc: Global) -> Result<(u32, u32, u32), NoMemory> {
    let mut plan = Plan::with_room(alloc, 10)?;
    push_entry(&mut plan, 1, 59, ENDED);
    let entered = plan.len();
    push_retire(&mut plan, 1, 1, true);
    Ok((entered, plan.len(), plan.spare()))
}

#[test]
fn plans_have_their_actions(rt: HostRuntime) -> Result<(), Fail> {
    assert_eq!(rt; plan_begin(rt.alloc(), 16)?.len(), 3);
    assert_eq!(rt; retire_actions(0, false), 3);
    assert_eq!(rt; retire_actions(1, true), 7);
    assert_eq!(rt; plan_lengths(rt.alloc()), Ok((3, 10, 0)));
    Ok(())
}
