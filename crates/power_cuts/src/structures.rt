//! Each power cut of the first extension of a transaction object and of the creation of a table: opened step by step,
//! the image is sound and has the change whole or not at all.
ghost use Rattle.std.specs.Prelude.{◌≡◌, ◌≤◌, None, slice_index};
ghost use Rattle.image_layout.specs.Fixed.{lane_op_at, ready_at, first_segment_at, table_count_at, table_slot_at};
ghost use Rattle.image_layout.specs.Checks.{first_fault};
ghost use Rattle.pmem_recover.specs.EntryRules.{entry_rules};

use crate::objects::use_words;
use crate::opening::{KEEPS, Step, mend, open, play};
use arrayvec::ArrayVec;
use heap_palloc::reopen;
use mv_model::{Column, Kind, Name, Shape};
use pm_model::{
    Keep, Memory, NoMemory, Place, Plain, Plan, fresh, lane_op, ready_segments, segment_pointer,
    table_count, table_slot,
};
use pmem_recover::check_entry;
use std::alloc::Global;
use std::ops::Range;
use std::process::Abort;
use std::test::Fail;
use txn_object::plan_extend;

// The words of the segment: the first slot of page 4.
const SEGMENT: Range<u32> = 2056..2312;

// The plan by which session 1's object is extended, where it has no segment.
fn extension<M: Memory>(rt: &impl Abort, alloc: Global, memory: &M) -> Result<Plan, NoMemory> {
    let words = memory.choose(Keep::All)?;
    assert_eq!(rt; memory.load(lane_op(0)), 0);
    assert_eq!(rt; memory.load(ready_segments(0)), 0);
    assert_eq!(rt; memory.load(segment_pointer(0)), 0);
    match check_entry(alloc, &words) {
        Ok(()) => first_extension(rt, alloc, memory),
        Err(_) => panic!(rt; "the image breaks a rule"),
    }
}

fn first_extension<M: Memory>(rt: &impl Abort, alloc: Global, memory: &M) -> Result<Plan, NoMemory>
    requires rules { first_fault entry_rules (M.device memory.now).cached ≡ None }
    requires idle { slice_index (M.device memory.now).cached (lane_op_at 0) ≡ 0 }
    requires none { slice_index (M.device memory.now).cached (ready_at 0) ≡ 0 }
    requires pointer { slice_index (M.device memory.now).cached (first_segment_at 0) ≡ 0 }
{
    let mut heap = reopen(alloc, memory)?;
    match plan_extend(alloc, memory, &mut heap, 1) {
        Ok(plan) => Ok(plan),
        Err(_) => panic!(rt; "there is room"),
    }
}

fn name(rt: &impl Abort, text: &str) -> Name {
    match Name::read(text) {
        Some(name) => name,
        None => panic!(rt; "it is a name"),
    }
}

// The plan by which the table `t` with one column of integers is created, where there is no table.
fn creation<M: Memory>(rt: &impl Abort, alloc: Global, memory: &M) -> Result<Plan, NoMemory> {
    let words = memory.choose(Keep::All)?;
    assert_eq!(rt; memory.load(lane_op(0)), 0);
    assert_eq!(rt; memory.load(table_count()), 0);
    assert_eq!(rt; memory.load(table_slot(0)), 0);
    match check_entry(alloc, &words) {
        Ok(()) => first_creation(rt, alloc, memory),
        Err(_) => panic!(rt; "the image breaks a rule"),
    }
}

fn first_creation<M: Memory>(rt: &impl Abort, alloc: Global, memory: &M) -> Result<Plan, NoMemory>
    requires rules { first_fault entry_rules (M.device memory.now).cached ≡ None }
    requires idle { slice_index (M.device memory.now).cached (lane_op_at 0) ≡ 0 }
    requires none { slice_index (M.device memory.now).cached table_count_at ≡ 0 }
    requires slot { slice_index (M.device memory.now).cached (table_slot_at 0) ≡ 0 }
{
    let mut columns = ArrayVec::new();
    columns.push(Column {
        name: name(rt, "a"),
        kind: Kind::Int,
    });
    let Some(shape) = Shape::of(columns) else {
        panic!(rt; "it is a shape")
    };
    let mut heap = reopen(alloc, memory)?;
    let mut catalog = catalog::rebuild(alloc, memory)?;
    match catalog.plan_create(alloc, memory, &mut heap, 0, &name(rt, "t"), &shape) {
        Ok(plan) => Ok(plan),
        Err(_) => panic!(rt; "there is room"),
    }
}

#[derive(Clone, Copy)]
enum Change {
    Extension,
    Creation,
}

// A formatted image of one segment in which the words of the first slot of page 4 aren't 0.
fn used(rt: &impl Abort, alloc: Global) -> Result<Plain, NoMemory> {
    let mut words = fresh(alloc, 1)?;
    use_words(&mut words, SEGMENT);
    assert!(rt; words.len() == 32768);
    Plain::new(alloc, words)
}

// A segment that is ready has no entries.
fn assert_no_entries<M: Memory>(rt: &impl Abort, memory: &M) {
    if memory.load(ready_segments(0)) > 0 {
        for place in SEGMENT {
            assert!(rt; place < memory.len());
            assert_eq!(rt; memory.load(Place(place)), 0);
        }
    }
}

// The plan of a change.
fn plan_of<M: Memory>(
    rt: &impl Abort,
    alloc: Global,
    memory: &M,
    change: Change,
) -> Result<Plan, NoMemory> {
    match change {
        Change::Extension => extension(rt, alloc, memory),
        Change::Creation => creation(rt, alloc, memory),
    }
}

// Plays so many of a change's actions, and chooses the image of a power cut then.
fn cut_change<M: Memory>(
    rt: &impl Abort,
    alloc: Global,
    memory: &mut M,
    change: Change,
    played: u32,
    keep: Keep,
) -> Result<Vec<u64>, NoMemory> {
    let mut plan = plan_of(rt, alloc, memory, change)?;
    play(rt, memory, 1, &mut plan, played);
    drop(plan);
    memory.choose(keep)
}

// The image that is left of a change that is cut after so many of its actions.
fn cut_image(
    rt: &impl Abort,
    alloc: Global,
    change: Change,
    played: u32,
    keep: Keep,
) -> Result<Vec<u64>, NoMemory> {
    let mut memory = used(rt, alloc)?;
    let image = cut_change(rt, alloc, &mut memory, change, played, keep);
    drop(memory);
    image
}

// Opens an image step by step, and gives the word that says how often the change was made.
fn made_of<M: Memory>(
    rt: &impl Abort,
    alloc: Global,
    memory: &mut M,
    change: Change,
) -> Result<u64, NoMemory> {
    mend(rt, alloc, memory, Step::Lanes)?;
    assert_no_entries(rt, memory);
    open(rt, alloc, memory)?;
    match change {
        Change::Extension => Ok(memory.load(ready_segments(0))),
        Change::Creation => Ok(memory.load(table_count())),
    }
}

// The word that says how often the change was made, on an opened image of the change, cut after so many of its actions.
fn made_after(
    rt: &impl Abort,
    alloc: Global,
    change: Change,
    played: u32,
    keep: Keep,
) -> Result<u64, NoMemory> {
    let image = cut_image(rt, alloc, change, played, keep)?;
    assert!(rt; image.len() == 32768);
    let mut opened = Plain::new(alloc, image)?;
    let made = made_of(rt, alloc, &mut opened, change);
    drop(opened);
    made
}

// Cuts a change after each of its actions: it is made from the store on that publishes it, where all is kept, and from
// its last action on, where only what is durable is.
fn cut_everywhere(
    rt: &impl Abort,
    alloc: Global,
    change: Change,
    actions: u32,
) -> Result<(), NoMemory>
    requires { actions ≤ 1000 }
{
    for played in 0..=actions {
        for keep in KEEPS {
            let made = made_after(rt, alloc, change, played, keep)?;
            let stored = played + 2 >= actions;
            let durable = played == actions;
            match keep {
                Keep::Nothing => assert_eq!(rt; made, u64::from(durable)),
                Keep::All => assert_eq!(rt; made, u64::from(stored)),
                Keep::Mix(_) => assert!(rt;
                    made == u64::from(stored) || made == u64::from(durable)
                ),
            }
        }
    }
    Ok(())
}

// A page becomes small, a segment is allocated on it, its 256 words are made 0, and it is ready: 6, 16, 289 and 3
// actions.
#[test]
fn a_cut_extension_is_made_or_not(rt: HostRuntime) -> Result<(), Fail> {
    cut_everywhere(&rt, rt.alloc(), Change::Extension, 314)?;
    Ok(())
}

// A page becomes small, a block is allocated on it, its 80 words are stored, and the count is raised: 6, 16, 91 and 3.
#[test]
fn a_cut_creation_is_made_or_not(rt: HostRuntime) -> Result<(), Fail> {
    cut_everywhere(&rt, rt.alloc(), Change::Creation, 116)?;
    Ok(())
}
