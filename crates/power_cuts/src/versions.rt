//! Each power cut of the opening of an image of version 1: what it leaves has the same tables, and opened again it
//! comes to the same image of version 2.
ghost use Rattle.catalog.specs.Entries.{KeepsTableRules};

use crate::opening::open;
use crate::tests::taken;
use crate::witness::Witness;
use catalog::rebuild;
use image_rules::distinct_name_fault;
use mv_model::{Kind, Shape};
use pm_model::{Keep, Memory, NoMemory, Plain, fresh};
use pmem_recover::check_entry;
use std::alloc::Global;
use std::process::Abort;
use std::test::Fail;
use test_ground::set_words;

// A place and its word.
type PlacedWord = (usize, u64);

// An image of version 1 with two tables, whose blocks are the first two slots of page 4: `t a:int` with a chunk of each
// of the arrays of creators, of enders and of codes, in the pages 5 to 7, and `u b:text c:int` without any. The first
// commit is cut before its commit word: its transaction has stamped row 0 of `t`, which it created.
const FIRST_VERSION: [PlacedWord; 28] = [
    (4, 6),
    (5, 17),
    (6, 17),
    (7, 17),
    (513, 1),
    (515, 2),
    (520, 4_294_969_352),
    (521, 4_294_969_480),
    (1_024, 1),
    (1_028, 1 << 56),
    (2_048, 3),
    (2_056, 1),
    (2_058, 116),
    (2_064, 1),
    (2_065, 4_294_969_856),
    (2_080, 1),
    (2_081, 4_294_970_368),
    (2_096, 1),
    (2_097, 97),
    (2_104, 1),
    (2_105, 4_294_970_880),
    (2_184, 2),
    (2_186, 117),
    (2_224, 2),
    (2_225, 98),
    (2_264, 1),
    (2_265, 99),
    (2_560, 1),
];

// What opening makes of it: the row is dead and used up, the object is clear, each block says how many columns stand in
// it, and the version is 2.
const OPENED: [PlacedWord; 7] = [
    (1_024, 0),
    (1_028, 0),
    (2_057, 1),
    (2_560, u64::MAX),
    (2_062, 1),
    (2_190, 2),
    (513, 2),
];

// The stamp and the bound are one part, of 5 actions; the state, the entry, the two counts and the version are parts of
// 3 actions.
const ACTIONS: u64 = 20;

// A formatted image of one segment in which words are set, list by list.
fn image(alloc: Global, lists: &[&[PlacedWord]]) -> Result<Vec<u64>, NoMemory> {
    let mut words = fresh(alloc, 1)?;
    for changes in lists {
        set_words(&mut words, changes);
    }
    Ok(words)
}

// A memory at rest with the words of an image of one segment.
fn memory_of(rt: &impl Abort, alloc: Global, image: &[u64]) -> Result<Plain, NoMemory> {
    assert!(rt; image.len() == 32768);
    Plain::new(alloc, Vec::from_slice(alloc, image)?)
}

// Whether a table has columns of these kinds.
fn has_kinds(shape: &Shape, kinds: &[Kind]) -> bool {
    shape.columns().len() == kinds.len()
        && shape
            .columns()
            .iter()
            .zip(kinds)
            .all(|(column, kind)| column.kind == *kind)
}

// Whether an image shows the two tables.
fn shows_both<M: Memory>(alloc: Global, memory: &M) -> Result<bool, NoMemory>
    requires { KeepsTableRules (M.device memory.now).cached }
{
    let catalog = rebuild(alloc, memory)?;
    Ok(
        catalog.count() == 2
            && has_kinds(catalog.shape(0), &[Kind::Int])
            && has_kinds(catalog.shape(1), &[Kind::Text, Kind::Int]),
    )
}

// The same, where the rules by which tables are read back are tried first.
fn has_both<M: Memory>(rt: &impl Abort, alloc: Global, memory: &M) -> Result<bool, NoMemory> {
    let words = memory.choose(Keep::All)?;
    assert!(rt; words.len() == 32768);
    match check_entry(alloc, &words) {
        Ok(()) => match distinct_name_fault(&words) {
            None => shows_both(alloc, memory),
            Some(_) => Ok(false),
        },
        Err(_) => Ok(false),
    }
}

// Whether a memory shows the two tables, and opened has these words, which show them too.
fn reaches<M: Memory>(
    rt: &impl Abort,
    alloc: Global,
    memory: &mut M,
    words: &[u64],
) -> Result<bool, NoMemory> {
    let before = has_both(rt, alloc, memory)?;
    open(rt, alloc, memory)?;
    let after = has_both(rt, alloc, memory)?;
    let reached = memory.choose(Keep::Nothing)?;
    Ok(before && after && reached.as_slice() == words)
}

// The same of an image.
fn leads_to(
    rt: &impl Abort,
    alloc: Global,
    image: &[u64],
    words: &[u64],
) -> Result<bool, NoMemory> {
    let mut memory = memory_of(rt, alloc, image)?;
    let same = reaches(rt, alloc, &mut memory, words);
    drop(memory);
    same
}

// Opens a memory, and gives the picture that was taken. The opening plays as many actions as it is said to.
fn watched<M: Memory>(
    rt: &impl Abort,
    alloc: Global,
    memory: &mut Witness<M>,
) -> Result<Vec<u64>, NoMemory> {
    open(rt, alloc, memory)?;
    assert_eq!(rt; memory.played(), ACTIONS);
    taken(rt, alloc, memory)
}

// What a power cut leaves of the opening of an image, after this action.
fn cut_opening(
    rt: &impl Abort,
    alloc: Global,
    image: &[u64],
    at: u64,
    keep: Keep,
) -> Result<Vec<u64>, NoMemory> {
    let mut memory = Witness::new(memory_of(rt, alloc, image)?, at, keep);
    let left = watched(rt, alloc, &mut memory);
    drop(memory);
    left
}

// Whether each cut after this action of the opening of an image shows the two tables, and leads to these words.
fn cuts_lead_to(
    rt: &impl Abort,
    alloc: Global,
    image: &[u64],
    at: u64,
    words: &[u64],
) -> Result<bool, NoMemory> {
    let mut same = true;
    for keep in [Keep::Nothing, Keep::All, Keep::Mix(1), Keep::Mix(2)] {
        let left = cut_opening(rt, alloc, image, at, keep)?;
        same = leads_to(rt, alloc, &left, words)? && same;
    }
    Ok(same)
}

#[test]
fn each_cut_from_version_1_comes_to_one_image(rt: HostRuntime) -> Result<(), Fail> {
    let alloc = rt.alloc();
    let first = image(alloc, &[&FIRST_VERSION])?;
    let second = image(alloc, &[&FIRST_VERSION, &OPENED])?;
    assert!(rt; leads_to(&rt, alloc, &first, &second)?);
    for at in 1..=ACTIONS {
        assert!(rt; cuts_lead_to(&rt, alloc, &first, at, &second)?, "at {at}");
    }
    Ok(())
}
