// The steps of opening: the plan that each finds on an image in which words were changed, and lanes that a power cut
// left.
ghost use Rattle.std.specs.Prelude.{◌≡◌, ◌≤◌, IfOk, IsTrue, None};
ghost use Rattle.image_layout.specs.Checks.{first_fault};
ghost use Rattle.pmem_recover.specs.EntryRules.{entry_rules};

use crate::check_tests::{Told, told};
use crate::ground::{BLOCK, Change, FIRST_VERSION, PAGE_5, PAGE_9, TABLE, VALUE, image};
use pm_model::{Action, Keep, Memory, Place, Plain, Plan, fresh};
use pmem_recover::{
    NoMemory, check_entry, next_clear, next_idle, next_lane, next_last, next_slot, next_undo,
    next_version,
};
use std::alloc::Global;
use std::process::Abort;
use std::test::Fail;

// Actions, as constants have them.
macro_rules! store {
    ($place:expr, $value:expr) => {
        Action::Store {
            place: Place($place),
            value: $value,
        }
    };
}

macro_rules! flush {
    ($line:expr) => {
        Action::Flush { line: $line }
    };
}

// A step of opening.
#[derive(Clone, Copy)]
enum Step {
    Lane,
    Slot,
    Last,
    Undo,
    Idle,
    Clear,
    Version,
}

// Whether the memory's words keep the rules that are tried before it is opened.
fn is_entered<M: Memory>(alloc: Global, memory: &M) -> Result<bool, NoMemory>
    ensures { IfOk result (λ kept. IsTrue kept → first_fault entry_rules (M.device memory.now).cached ≡ None) }
{
    let words = memory.choose(Keep::All)?;
    match check_entry(alloc, &words) {
        Ok(()) => Ok(true),
        Err(_) => Ok(false),
    }
}

// The next plan of a step, on an image that keeps the rules.
fn step_plan<M: Memory>(
    alloc: Global,
    memory: &M,
    step: Step,
    from: u32,
) -> Result<Option<(u32, Plan)>, NoMemory>
    requires { first_fault entry_rules (M.device memory.now).cached ≡ None }
{
    match step {
        Step::Lane => next_lane(alloc, memory, from),
        Step::Slot => next_slot(alloc, memory, from),
        Step::Last => next_last(alloc, memory, from),
        Step::Undo => next_undo(alloc, memory, from),
        Step::Idle => next_idle(alloc, memory, from),
        Step::Clear => next_clear(alloc, memory, from),
        Step::Version => next_version(alloc, memory, from),
    }
}

// The same, where the rules are tried first.
fn next_plan<M: Memory>(
    rt: &impl Abort,
    alloc: Global,
    memory: &M,
    step: Step,
    from: u32,
) -> Result<Option<(u32, Plan)>, NoMemory> {
    let entered = is_entered(alloc, memory)?;
    if entered {
        step_plan(alloc, memory, step, from)
    } else {
        panic!(rt; "the image breaks a rule")
    }
}

// Whether a plan has these actions.
fn has_actions(plan: &mut Plan, actions: &[Action]) -> bool {
    if plan.len() as usize != actions.len() {
        return false;
    }
    for action in actions {
        if plan.next() != Some(*action) {
            return false;
        }
    }
    true
}

// The number that a step finds, and the actions of its plan.
type Found<'a> = Option<(u32, &'a [Action])>;

// Whether a step finds this on a memory.
fn finds<M: Memory>(
    rt: &impl Abort,
    alloc: Global,
    memory: &M,
    step: Step,
    from: u32,
    told: Found,
) -> Result<bool, NoMemory> {
    let Some((number, mut plan)) = next_plan(rt, alloc, memory, step, from)? else {
        return Ok(told.is_none());
    };
    Ok(match told {
        Some((expected, actions)) => number == expected && has_actions(&mut plan, actions),
        None => false,
    })
}

// Whether a step finds this on the image with the table, after some of its words were changed, and then others.
fn finds_changed(
    rt: &impl Abort,
    alloc: Global,
    step: Step,
    lists: &[&[Change]],
    from: u32,
    told: Found,
) -> Result<bool, NoMemory> {
    let words = image(alloc, lists)?;
    assert_eq!(rt; words.len(), 32768);
    let memory = Plain::new(alloc, words)?;
    finds(rt, alloc, &memory, step, from, told)
}

// What was changed, from which number on the step is asked, and what it finds.
type Case<'a> = (&'a [Change], u32, Found<'a>);

// Stops unless a step finds in each case what is told, on the image with the table and these changes.
fn assert_step(
    rt: &impl Abort,
    alloc: Global,
    step: Step,
    changed: &[Change],
    cases: &[Case],
) -> Result<(), NoMemory> {
    for (changes, from, told) in cases {
        let lists: [&[Change]; 3] = [&TABLE, changed, changes];
        assert!(rt;
            finds_changed(rt, alloc, step, &lists, *from, *told)?,
            "{changes:?}"
        );
    }
    Ok(())
}

// The pointers to the pages 6 to 8.
const PAGE_6: u64 = PAGE_5 + 512;

const PAGE_7: u64 = PAGE_5 + 1024;

const PAGE_8: u64 = PAGE_5 + 1536;

// The pointer to the table slot behind that of the one table, whose place is 521.
const SLOT: u64 = 4_294_967_817;

// The pointer to the second slot of page 4, whose place is 2184.
const SECOND: u64 = BLOCK + 128;

const IN_A_USED_PAGE: [Action; 16] = [
    store!(577, SLOT),
    store!(578, SECOND),
    flush!(72),
    Action::Fence,
    store!(576, 2),
    flush!(72),
    Action::Fence,
    store!(521, 0),
    flush!(65),
    Action::Fence,
    store!(2048, 1),
    flush!(256),
    Action::Fence,
    store!(576, 0),
    flush!(72),
    Action::Fence,
];

const ALONE_IN_ITS_PAGE: [Action; 19] = [
    store!(577, SLOT),
    store!(578, PAGE_5 + 8),
    flush!(72),
    Action::Fence,
    store!(576, 2),
    flush!(72),
    Action::Fence,
    store!(521, 0),
    flush!(65),
    Action::Fence,
    store!(2560, 0),
    flush!(320),
    Action::Fence,
    store!(576, 0),
    flush!(72),
    Action::Fence,
    store!(5, 0),
    flush!(0),
    Action::Fence,
];

const BIG: [Action; 16] = [
    store!(577, SLOT),
    store!(578, PAGE_5),
    flush!(72),
    Action::Fence,
    store!(576, 2),
    flush!(72),
    Action::Fence,
    store!(521, 0),
    flush!(65),
    Action::Fence,
    store!(5, 0),
    flush!(0),
    Action::Fence,
    store!(576, 0),
    flush!(72),
    Action::Fence,
];

const NOT_LIVE: [Action; 13] = [
    store!(577, SLOT),
    store!(578, SECOND),
    flush!(72),
    Action::Fence,
    store!(576, 2),
    flush!(72),
    Action::Fence,
    store!(521, 0),
    flush!(65),
    Action::Fence,
    store!(576, 0),
    flush!(72),
    Action::Fence,
];

#[test]
fn the_block_of_a_table_that_was_being_created_is_freed(rt: HostRuntime) -> Result<(), Fail> {
    let created = [(521, SECOND), (2048, 3)];
    let cases: [Case; 8] = [
        (&[], 0, None),
        (&created, 0, Some((0, &IN_A_USED_PAGE))),
        (&created, 1, None),
        (
            &[(5, 6), (2560, 1), (521, PAGE_5 + 8)],
            0,
            Some((0, &ALONE_IN_ITS_PAGE)),
        ),
        (&[(5, 17), (521, PAGE_5)], 0, Some((0, &BIG))),
        (&[(521, SECOND)], 0, Some((0, &NOT_LIVE))),
        // The lane has the two pointers already.
        (
            &[(521, SECOND), (2048, 3), (577, SLOT), (578, SECOND)],
            0,
            Some((0, &IN_A_USED_PAGE[4..])),
        ),
        (
            &[(521, SECOND), (577, SLOT), (578, SECOND)],
            0,
            Some((0, &NOT_LIVE[4..])),
        ),
    ];
    assert_step(&rt, rt.alloc(), Step::Slot, &[], &cases)?;
    Ok(())
}

// Two commits, three rows below the table's bound, and an open transaction without a commit word. It created the rows
// 3, 4 and 2, and ended the rows 0, 1 and 2. The stamps of commit 3 are its own. Those of row 2 are of commits that are
// kept.
const UNDECIDED: [Change; 17] = [
    (514, 2),
    (2057, 3),
    (2064, 1),
    (2065, PAGE_5),
    (2080, 1),
    (2081, PAGE_6),
    (1024, 1),
    (1028, CREATED + 3),
    (1029, ENDED),
    (1030, CREATED + 4),
    (1031, ENDED + 1),
    (1032, CREATED + 2),
    (1033, ENDED + 2),
    (2563, 3),
    (3072, 3),
    (2562, 2),
    (3074, 1),
];

// The entries of row 0 of table 0.
const CREATED: u64 = 1 << 56;

const ENDED: u64 = 2 << 56;

// The stamp of a row that is dead.
const DEAD: u64 = u64::MAX;

// A second table, `u a:int`, with a chunk of each array of stamps, and an entry of its row 6.
const SECOND_TABLE: [Change; 12] = [
    (515, 2),
    (521, SECOND),
    (2184, 1),
    (2190, 1),
    (2186, 117),
    (2224, 1),
    (2225, 97),
    (2192, 1),
    (2193, PAGE_7),
    (2208, 1),
    (2209, PAGE_8),
    (1034, CREATED + (1 << 32) + 6),
];

const TAKEN_BACK: [Action; 11] = [
    store!(2563, DEAD),
    store!(3072, 0),
    store!(2564, DEAD),
    store!(2057, 5),
    flush!(257),
    flush!(320),
    flush!(384),
    Action::Fence,
    store!(1024, 0),
    flush!(128),
    Action::Fence,
];

const BELOW_THE_BOUND: [Action; 9] = [
    store!(2563, DEAD),
    store!(3072, 0),
    store!(2564, DEAD),
    flush!(320),
    flush!(384),
    Action::Fence,
    store!(1024, 0),
    flush!(128),
    Action::Fence,
];

const WITHOUT_A_STAMP: [Action; 8] = [
    store!(2564, DEAD),
    store!(2057, 5),
    flush!(257),
    flush!(320),
    Action::Fence,
    store!(1024, 0),
    flush!(128),
    Action::Fence,
];

const TWICE_ENTERED: [Action; 11] = [
    store!(3072, 0),
    store!(2564, DEAD),
    store!(2563, DEAD),
    store!(2057, 5),
    flush!(257),
    flush!(320),
    flush!(384),
    Action::Fence,
    store!(1024, 0),
    flush!(128),
    Action::Fence,
];

const TWO_TABLES: [Action; 15] = [
    store!(2563, DEAD),
    store!(3072, 0),
    store!(2564, DEAD),
    store!(3590, DEAD),
    store!(2057, 5),
    store!(2185, 7),
    flush!(257),
    flush!(273),
    flush!(320),
    flush!(384),
    flush!(448),
    Action::Fence,
    store!(1024, 0),
    flush!(128),
    Action::Fence,
];

const LAST_OBJECT: [Action; 3] = [store!(1984, 0), flush!(248), Action::Fence];

#[test]
fn an_undecided_transaction_is_taken_back(rt: HostRuntime) -> Result<(), Fail> {
    let cases: [Case; 11] = [
        (&[], 0, Some((0, &TAKEN_BACK))),
        (&[], 1, None),
        (&[(2057, 9)], 0, Some((0, &BELOW_THE_BOUND))),
        (&[(514, 3)], 0, Some((0, &WITHOUT_A_STAMP))),
        (&[(1034, CREATED + 3)], 0, Some((0, &TWICE_ENTERED))),
        (&SECOND_TABLE, 0, Some((0, &TWO_TABLES))),
        // The first part was made.
        (
            &[(2563, DEAD), (3072, 0), (2564, DEAD), (2057, 5)],
            0,
            Some((0, &TAKEN_BACK[8..])),
        ),
        // It is closed, or decided.
        (&[(1024, 0)], 0, None),
        (&[(1025, 3)], 0, None),
        (&[(1025, 3), (1984, 1)], 0, Some((15, &LAST_OBJECT))),
        (&[(1984, 1)], 1, Some((15, &LAST_OBJECT))),
    ];
    assert_step(&rt, rt.alloc(), Step::Undo, &UNDECIDED, &cases)?;
    Ok(())
}

const RAISED: [Action; 3] = [store!(514, 3), flush!(64), Action::Fence];

#[test]
fn the_last_number_becomes_that_of_the_last_commit(rt: HostRuntime) -> Result<(), Fail> {
    let cases: [Case; 6] = [
        (&[], 0, None),
        (&[(514, 2), (1024, 1), (1025, 3)], 0, Some((0, &RAISED))),
        (&[(514, 2), (1024, 1), (1025, 3)], 1, None),
        (&[(514, 3), (1024, 1), (1025, 3)], 0, None),
        (&[(514, 2), (1025, 3)], 0, None),
        (
            &[(514, 2), (1024, 1), (1025, 1), (1984, 1), (1985, 3)],
            0,
            Some((0, &RAISED)),
        ),
    ];
    assert_step(&rt, rt.alloc(), Step::Last, &[], &cases)?;
    Ok(())
}

const FOURTH: [Action; 3] = [store!(1216, 0), flush!(152), Action::Fence];

const LAST: [Action; 3] = [store!(1984, 0), flush!(248), Action::Fence];

#[test]
fn objects_with_a_commit_word_are_closed(rt: HostRuntime) -> Result<(), Fail> {
    let both = [(1216, 1), (1217, 1), (1984, 1), (1985, 1)];
    let cases: [Case; 6] = [
        (&[], 0, None),
        (&[(1024, 1)], 0, None),
        (&[(1025, 1)], 0, None),
        (&both, 3, Some((3, &FOURTH))),
        (&both, 4, Some((15, &LAST))),
        (&both, 16, None),
    ];
    assert_step(&rt, rt.alloc(), Step::Idle, &[], &cases)?;
    Ok(())
}

// Object 0 stands at 1024 and object 15 at 1984: the state, the commit word, the number of ready segments, the pointer
// to the first one, and then the entries.
const OWN: [Action; 6] = [
    store!(1028, 0),
    store!(1087, 0),
    store!(1025, 0),
    flush!(128),
    flush!(135),
    Action::Fence,
];

const WITH_A_SEGMENT: [Action; 9] = [
    store!(2047, 0),
    store!(4609, 0),
    store!(4863, 0),
    store!(1985, 0),
    flush!(248),
    flush!(255),
    flush!(576),
    flush!(607),
    Action::Fence,
];

const SHARED: [Action; 3] = [store!(4700, 0), flush!(587), Action::Fence];

#[test]
fn entries_and_commit_words_are_cleared(rt: HostRuntime) -> Result<(), Fail> {
    let segment = [
        (1986, 1),
        (1987, PAGE_9),
        (2047, 9),
        (4609, 9),
        (4863, 9),
        (1985, 1),
    ];
    let cases: [Case; 6] = [
        (&[], 0, None),
        (&[(1025, 1), (1028, 9), (1087, 9)], 0, Some((0, &OWN))),
        (&[(1025, 1), (1028, 9), (1087, 9)], 1, None),
        (&segment, 0, Some((15, &WITH_A_SEGMENT))),
        (&segment, 16, None),
        // Two segments share words.
        (
            &[(1986, 2), (1987, PAGE_9), (4608, PAGE_9 + 32), (4700, 9)],
            0,
            Some((15, &SHARED)),
        ),
    ];
    assert_step(&rt, rt.alloc(), Step::Clear, &[], &cases)?;
    Ok(())
}

const BOTH_WORDS: [Action; 6] = [
    store!(2062, 1),
    flush!(257),
    Action::Fence,
    store!(513, 2),
    flush!(64),
    Action::Fence,
];

const VERSION_ALONE: [Action; 3] = [store!(513, 2), flush!(64), Action::Fence];

#[test]
fn version_1_becomes_version_2(rt: HostRuntime) -> Result<(), Fail> {
    let cases: [Case; 6] = [
        (&[], 0, Some((0, &BOTH_WORDS))),
        (&VALUE, 0, Some((0, &BOTH_WORDS))),
        (&[], 1, None),
        (&[(2062, 1)], 0, Some((0, &VERSION_ALONE))),
        (&[(2062, 1), (513, 2)], 0, None),
        (&[(2062, 9)], 0, Some((0, &BOTH_WORDS))),
    ];
    assert_step(&rt, rt.alloc(), Step::Version, &FIRST_VERSION, &cases)?;
    Ok(())
}

// The allocation of 80 words on a formatted image through lane 0, whose pointer goes into place 520: page 4 becomes a
// small page of class 4, and its first slot, at place 2056, is the block. Then the op of its freeing, for which the
// lane has the two pointers already.
const ALLOCATION_AND_FREEING: [Action; 25] = [
    store!(2048, 0),
    flush!(256),
    Action::Fence,
    store!(4, 6),
    flush!(0),
    Action::Fence,
    store!(577, 4_294_967_816),
    store!(578, BLOCK),
    flush!(72),
    Action::Fence,
    store!(576, 1),
    flush!(72),
    Action::Fence,
    store!(2048, 1),
    flush!(256),
    Action::Fence,
    store!(520, BLOCK),
    flush!(65),
    Action::Fence,
    store!(576, 0),
    flush!(72),
    Action::Fence,
    store!(576, 2),
    flush!(72),
    Action::Fence,
];

// Plays an action that may be played.
fn act<M: Memory>(rt: &impl Abort, memory: &mut M, session: u8, action: Action)
    requires { session ≤ 16 }
{
    match action {
        Action::Store { place, .. } => {
            assert!(rt; place.0 < memory.len());
            assert!(rt; memory.is_clean(place));
        }
        Action::Flush { line } => assert!(rt; line < memory.len() / 8),
        Action::Fence => {}
        Action::Punch { .. } => panic!(rt; "no lane punches"),
    }
    memory.act(session, action);
}

// Plays a plan of opening.
fn play<M: Memory>(rt: &impl Abort, memory: &mut M, plan: &mut Plan) {
    for _ in 0..plan.len() {
        let Some(action) = plan.next() else { break };
        act(rt, memory, 0, action);
    }
}

// Mends the first lane from one on that is at work, and gives its number.
fn mend_lane<M: Memory>(
    rt: &impl Abort,
    alloc: Global,
    memory: &mut M,
    from: u32,
) -> Result<Option<u32>, NoMemory> {
    let Some((lane, mut plan)) = next_plan(rt, alloc, memory, Step::Lane, from)? else {
        return Ok(None);
    };
    play(rt, memory, &mut plan);
    Ok(Some(lane))
}

// Mends all lanes.
fn mend_lanes<M: Memory>(rt: &impl Abort, alloc: Global, memory: &mut M) -> Result<(), NoMemory> {
    let mut from = 0;
    for _ in 0..16 {
        let Some(lane) = mend_lane(rt, alloc, memory, from)? else {
            break;
        };
        from = lane.saturating_add(1);
    }
    Ok(())
}

// What a power cut leaves of the image of version 1 with a row after so many actions of the step to version 2.
fn cut_version(
    rt: &impl Abort,
    alloc: Global,
    played: usize,
    keep: Keep,
) -> Result<Vec<u64>, NoMemory> {
    let words = image(alloc, &[&TABLE, &VALUE, &FIRST_VERSION])?;
    assert_eq!(rt; words.len(), 32768);
    let mut memory = Plain::new(alloc, words)?;
    for action in BOTH_WORDS.iter().take(played) {
        act(rt, &mut memory, 0, *action);
    }
    memory.choose(keep)
}

// Whether two images have the same words beside those that the step stores: no word of a table's name, columns, rows or
// values is one of these.
fn show_the_same(words: &[u64], others: &[u64]) -> bool {
    let mut same = words.len() == others.len();
    for (place, (word, other)) in words.iter().zip(others).enumerate() {
        same = same && (word == other || place == 513 || place == 2062);
    }
    same
}

// The one rule that an image of version 1 may break, where it is one.
fn old_version(words: &[u64]) -> Told {
    (words.get(513) == Some(&1)).then_some((31, 513))
}

// The words that the step comes to from an image.
fn of_version_2(rt: &impl Abort, alloc: Global, cut: Vec<u64>) -> Result<Vec<u64>, NoMemory> {
    assert_eq!(rt; cut.len(), 32768);
    let mut opened = Plain::new(alloc, cut)?;
    if let Some((_, mut plan)) = next_plan(rt, alloc, &opened, Step::Version, 0)? {
        play(rt, &mut opened, &mut plan);
    }
    opened.choose(Keep::Nothing)
}

#[test]
fn a_cut_step_to_version_2_is_made_anew(rt: HostRuntime) -> Result<(), Fail> {
    let alloc = rt.alloc();
    let second = image(alloc, &[&TABLE, &VALUE])?;
    for played in 0..=6 {
        for keep in [Keep::Nothing, Keep::All] {
            let cut = cut_version(&rt, alloc, played, keep)?;
            assert!(rt; show_the_same(&cut, &second), "{played}");
            assert_eq!(rt; told(alloc, &cut), Some(old_version(&cut)), "{played}");
            let words = of_version_2(&rt, alloc, cut)?;
            assert!(rt; words == second, "{played}");
        }
    }
    Ok(())
}

// An image that a power cut left after so many of these actions.
fn cut_image(
    rt: &impl Abort,
    alloc: Global,
    played: usize,
    keep: Keep,
) -> Result<Vec<u64>, NoMemory> {
    let mut memory = Plain::new(alloc, fresh(alloc, 1)?)?;
    for action in ALLOCATION_AND_FREEING.iter().take(played) {
        act(rt, &mut memory, 1, *action);
    }
    memory.choose(keep)
}

// The bitmap of page 4 and the word at place 520.
fn seen<M: Memory>(rt: &impl Abort, memory: &M) -> (u64, u64) {
    assert!(rt; memory.len() > 2048);
    (memory.load(Place(2048)), memory.load(Place(520)))
}

// The same where these actions were cut after so many and the lanes were mended.
fn mended_cut(
    rt: &impl Abort,
    alloc: Global,
    played: usize,
    keep: Keep,
) -> Result<(u64, u64), NoMemory> {
    let words = cut_image(rt, alloc, played, keep)?;
    assert_eq!(rt; words.len(), 32768);
    let mut opened = Plain::new(alloc, words)?;
    mend_lanes(rt, alloc, &mut opened)?;
    Ok(seen(rt, &opened))
}

// The owner's word is stored by the 17th action and safe from the 19th on, and the op of the freeing by the 23rd and
// the 25th.
#[test]
fn a_cut_allocation_or_freeing_is_done_or_undone(rt: HostRuntime) -> Result<(), Fail> {
    for played in 0..=25 {
        for (keep, done, freed) in [(Keep::Nothing, 19, 25), (Keep::All, 17, 23)] {
            let words = if done <= played && played < freed {
                (1, BLOCK)
            } else {
                (0, 0)
            };
            assert_eq!(rt; mended_cut(&rt, rt.alloc(), played, keep)?, words);
        }
    }
    Ok(())
}
