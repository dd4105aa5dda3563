ghost use Rattle.std.specs.Prelude.{◌≡◌, ◌≤◌};
ghost use Rattle.pm_model.specs.declared.action.Action.TheVariants.{Store};

use pm_model::{Action, Keep, Memory, NoMemory, Place, Plain, Plan, fresh, mix, play};
use std::alloc::Global;
use std::test::Fail;

fn store(place: u32) -> Action
    ensures { result ≡ Store (record { 0 = place }) 7 }
{
    Action::Store {
        place: Place(place),
        value: 7,
    }
}

// What a power cut leaves at place 9 after session 1 stored there, session 2 flushed the line, and one of them fenced.
fn left_at_9(alloc: Global, fencing: u8, keep: Keep) -> Result<Option<u64>, NoMemory>
    requires { fencing ≤ 16 }
{
    let mut memory = Plain::new(alloc, fresh(alloc, 1)?)?;
    if memory.is_clean(Place(9)) {
        memory.act(1, store(9));
    }
    memory.act(2, Action::Flush { line: 1 });
    memory.act(fencing, Action::Fence);
    let words = memory.choose(keep)?;
    Ok(words.get(9).copied())
}

#[test]
fn a_word_is_durable_after_a_flush_and_that_sessions_fence(rt: HostRuntime) -> Result<(), Fail> {
    for (fencing, keep, left) in [
        (1, Keep::Nothing, 0),
        (1, Keep::All, 7),
        (2, Keep::Nothing, 7),
        (2, Keep::Mix(3), 7),
    ] {
        assert_eq!(rt; left_at_9(rt.alloc(), fencing, keep)?, Some(left));
    }
    Ok(())
}

// The first numbers of the published generator SplitMix64 from seed 0, which adds the first constant before it mixes.
#[test]
fn the_generator_is_the_published_one(rt: HostRuntime) {
    let step = 0x9E37_79B9_7F4A_7C15u64;
    for (turn, number) in [
        (0, 0xE220_A839_7B1D_CDAF),
        (1, 0x6E78_9E6A_A1B9_65F4),
        (2, 0x06C4_5D18_8009_454F),
        (3, 0xF88B_B8A8_724C_81EC),
    ] {
        assert_eq!(rt; mix(step.wrapping_mul(turn)), number);
    }
}

// A part of these stores, and behind it a fence of another plan.
fn part_of(alloc: Global, places: [u32; 3]) -> Result<Plan, NoMemory> {
    let mut plan = Plan::with_room(alloc, 8)?;
    plan.push(store(places[0]));
    plan.push(store(places[1]));
    plan.push(store(places[2]));
    plan.end_part(3);
    let mut other = Plan::with_room(alloc, 1)?;
    other.push(Action::Fence);
    plan.append(other);
    Ok(plan)
}

// Whether the first actions of a plan are these, which are taken from it.
fn begins_with(plan: &mut Plan, actions: &[Action]) -> bool {
    for action in actions {
        if plan.next() != Some(*action) {
            return false;
        }
    }
    true
}

#[test]
fn a_part_ends_with_its_lines_in_order(rt: HostRuntime) -> Result<(), Fail> {
    let mut plan = part_of(rt.alloc(), [17, 9, 16])?;
    assert_eq!(rt; plan.len(), 7);
    assert_eq!(rt; plan.spare(), 1);
    let actions = [
        store(17),
        store(9),
        store(16),
        Action::Flush { line: 1 },
        Action::Flush { line: 2 },
        Action::Fence,
        Action::Fence,
    ];
    assert!(rt; begins_with(&mut plan, &actions));
    assert!(rt; plan.is_empty());
    Ok(())
}

#[test]
fn a_plan_is_played_in_order(rt: HostRuntime) -> Result<(), Fail> {
    let mut memory = Plain::new(rt.alloc(), fresh(rt.alloc(), 1)?)?;
    let mut plan = Plan::with_room(rt.alloc(), 2)?;
    plan.push(Action::Flush { line: 5 });
    plan.push(Action::Fence);
    play(&mut memory, 4, &mut plan, 1);
    assert_eq!(rt; plan.len(), 1);
    assert!(rt; begins_with(&mut plan, &[Action::Fence]));
    Ok(())
}
