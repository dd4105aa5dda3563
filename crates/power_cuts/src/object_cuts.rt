//! Each power cut of the extension of a transaction object that has a ready segment and entries of an open transaction:
//! the ready segments are those before or after, the entries stay, a new segment has none, and opening undoes the
//! transaction.
ghost use Rattle.std.specs.Prelude.{◌≤◌};
ghost use Rattle.txn_object.specs.TestObject.{HasEntries};

use crate::objects::{Behind, in_transaction};
use crate::opening::{KEEPS, Step, mend, open, play};
use heap_palloc::reopen;
use pm_model::{Keep, Memory, NoMemory, Place, Plain, Plan};
use std::alloc::Global;
use std::ops::Range;
use std::process::Abort;
use std::test::Fail;
use txn_object::plan_extend;

// The second segment: the first slot of page 9.
const SECOND: Range<u32> = 4_616..4_872;

// An entry that says that row 0 of table 0 was created.
const CREATED: u64 = 1 << 56;

// The plan by which the object is extended.
fn extension<M: Memory>(rt: &impl Abort, alloc: Global, memory: &M) -> Result<Plan, NoMemory>
    requires { HasEntries (M.device memory.now) 1 63 }
{
    let mut heap = reopen(alloc, memory)?;
    match plan_extend(alloc, memory, &mut heap, 1) {
        Ok(plan) => Ok(plan),
        Err(_) => panic!(rt; "there is room"),
    }
}

// The word at a place.
fn word<M: Memory>(rt: &impl Abort, memory: &M, place: u32) -> u64 {
    assert!(rt; place < memory.len());
    memory.load(Place(place))
}

fn assert_zeros<M: Memory>(rt: &impl Abort, memory: &M, places: Range<u32>) {
    for place in places {
        assert_eq!(rt; word(rt, memory, place), 0);
    }
}

// The entries are those of the transaction, and a second segment has none.
fn assert_entries<M: Memory>(rt: &impl Abort, memory: &M, ready: u64) {
    for row in 0..60 {
        assert_eq!(rt; word(rt, memory, 1_028 + row), CREATED + u64::from(row));
    }
    for row in 60..63 {
        assert_eq!(rt; word(rt, memory, 4_045 + row), CREATED + u64::from(row));
    }
    assert_zeros(rt, memory, 4_108..4_360);
    if ready > 1 {
        assert_zeros(rt, memory, SECOND);
    }
}

// The transaction is undone: its object is idle and has no entries, and its rows are dead.
fn assert_undone<M: Memory>(rt: &impl Abort, memory: &M) {
    assert_zeros(rt, memory, 1_024..1_026);
    assert_zeros(rt, memory, 1_028..1_088);
    assert_zeros(rt, memory, 4_105..4_360);
    assert_eq!(rt; word(rt, memory, 2_057), 63);
    for row in 0..63 {
        assert_eq!(rt; word(rt, memory, 2_560 + row), u64::MAX);
    }
    assert_zeros(rt, memory, 2_623..3_584);
}

// Plays so many of the extension's actions, and chooses the image of a power cut then.
fn cut_extension<M: Memory>(
    rt: &impl Abort,
    alloc: Global,
    memory: &mut M,
    played: u32,
    keep: Keep,
) -> Result<Vec<u64>, NoMemory>
    requires { HasEntries (M.device memory.old) 1 63 }
{
    let mut plan = extension(rt, alloc, memory)?;
    play(rt, memory, 1, &mut plan, played);
    drop(plan);
    memory.choose(keep)
}

// The image that is left of an extension that is cut after so many of its actions.
fn cut_image(
    rt: &impl Abort,
    alloc: Global,
    behind: Behind,
    played: u32,
    keep: Keep,
) -> Result<Vec<u64>, NoMemory> {
    let mut memory = in_transaction(rt, alloc, behind)?;
    let image = cut_extension(rt, alloc, &mut memory, played, keep);
    drop(memory);
    image
}

// Opens an image step by step, and gives how many segments are ready.
fn ready_of<M: Memory>(rt: &impl Abort, alloc: Global, memory: &mut M) -> Result<u64, NoMemory> {
    mend(rt, alloc, memory, Step::Lanes)?;
    let ready = word(rt, memory, 1_026);
    assert_entries(rt, memory, ready);
    open(rt, alloc, memory)?;
    assert_undone(rt, memory);
    assert!(rt; word(rt, memory, 1_026) == ready);
    Ok(ready)
}

// How many segments are ready once an extension that was cut after so many of its actions is opened.
fn ready_after(
    rt: &impl Abort,
    alloc: Global,
    behind: Behind,
    played: u32,
    keep: Keep,
) -> Result<u64, NoMemory> {
    let image = cut_image(rt, alloc, behind, played, keep)?;
    assert!(rt; image.len() == 32768);
    let mut opened = Plain::new(alloc, image)?;
    let ready = ready_of(rt, alloc, &mut opened);
    drop(opened);
    ready
}

// Cuts an extension after each of its actions: the second segment is ready from the store on that says so, where all is
// kept, and from the last action on, where only what is durable is.
fn cut_everywhere(
    rt: &impl Abort,
    alloc: Global,
    behind: Behind,
    actions: u32,
) -> Result<(), NoMemory>
    requires { actions ≤ 1000 }
{
    for played in 0..=actions {
        for keep in KEEPS {
            let ready = ready_after(rt, alloc, behind, played, keep)?;
            let stored = if played + 2 >= actions { 2 } else { 1 };
            let durable = if played == actions { 2 } else { 1 };
            match keep {
                Keep::Nothing => assert_eq!(rt; ready, durable),
                Keep::All => assert_eq!(rt; ready, stored),
                Keep::Mix(_) => assert!(rt; ready == stored || ready == durable),
            }
        }
    }
    Ok(())
}

// A page becomes small, a segment is allocated on it, its 256 words are made 0, and it is ready: 6, 16, 289 and 3
// actions.
#[test]
fn a_cut_extension_keeps_all_entries(rt: HostRuntime) -> Result<(), Fail> {
    cut_everywhere(&rt, rt.alloc(), Behind::Nothing, 314)?;
    Ok(())
}

// The words of the segment that the object owns are made 0, and it is ready: 289 and 3 actions.
#[test]
fn a_cut_extension_by_an_owned_segment_keeps_all_entries(rt: HostRuntime) -> Result<(), Fail> {
    cut_everywhere(&rt, rt.alloc(), Behind::Segment, 292)?;
    Ok(())
}
