use pm_model::{Action, NoMemory, Place, Plan};
use row_stamps::{push_dead, push_stamp, visible};
use std::alloc::Global;
use std::test::Fail;

#[test]
fn a_row_is_visible_from_its_commit_to_its_end(rt: HostRuntime) {
    let table = [
        (3, 0, 3, true),
        (4, 0, 3, false),
        (1, 3, 3, false),
        (1, 4, 3, true),
        (0, 0, 3, false),
        (2, 2, 2, false),
        (u64::MAX, 0, 1_099_511_627_775, false),
    ];
    for (b, e, snapshot, seen) in table {
        assert_eq!(rt; visible(b, e, snapshot), seen);
    }
}

// Whether the plan of these two stamps has these two stores and no more.
fn stores_are(alloc: Global, first: u64, second: u64) -> Result<bool, NoMemory> {
    let mut plan = Plan::with_room(alloc, 2)?;
    push_stamp(&mut plan, Place(2560), 9);
    push_dead(&mut plan, Place(2561));
    let one = Action::Store {
        place: Place(2560),
        value: first,
    };
    let other = Action::Store {
        place: Place(2561),
        value: second,
    };
    Ok(plan.next() == Some(one) && plan.next() == Some(other) && plan.is_empty())
}

#[test]
fn a_stamp_is_one_store(rt: HostRuntime) -> Result<(), Fail> {
    assert!(rt; stores_are(rt.alloc(), 9, 18_446_744_073_709_551_615)?);
    Ok(())
}
