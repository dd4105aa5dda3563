//! Each power cut of a script, each power cut of the opening behind it, and what the next opening shows.
use super::*;
use engine_core::{Core, OpenError};
use pm_model::{Keep, Memory, NoMemory, Plain};
use stage_calls::{Statement, fresh_core, say};
use std::alloc::Global;
use std::process::Abort;
use std::test::Fail;

/// The words of an image of one segment.
const WORDS: usize = 32_768;

const SCRIPT: [Statement; 4] = [
    Statement::Begin,
    Statement::Insert(7),
    Statement::Get(0),
    Statement::Commit,
];

/// Says the script until so many actions were played, and chooses the image of a power cut then.
fn cut_script<M: Memory>(
    alloc: Global,
    core: &mut Core<M>,
    cut: u64,
    keep: Keep,
) -> Result<Vec<u64>, NoMemory> {
    for statement in SCRIPT {
        say(alloc, core, statement, cut)?;
    }
    core.memory().choose(keep)
}

/// The image that a power cut leaves after so many actions of the script.
fn image_after(alloc: Global, cut: u64, keep: Keep) -> Result<Vec<u64>, OpenError> {
    let mut core = fresh_core(alloc, 1)?;
    let image = cut_script(alloc, &mut core, cut, keep);
    drop(core);
    Ok(image?)
}

/// Opens an image, and watches its opening.
fn open(
    rt: &impl Abort,
    alloc: Global,
    image: &[u64],
    at: u64,
    keep: Keep,
) -> Result<Core<Witness<Plain>>, OpenError> {
    assert!(rt; image.len() == WORDS);
    let memory = Plain::new(alloc, Vec::from_slice(alloc, image)?)?;
    Core::from_memory(alloc, Witness::new(memory, at, keep))
}

/// The words that the opening of an image leaves, and how many actions it plays.
fn opened(rt: &impl Abort, alloc: Global, image: &[u64]) -> Result<(Vec<u64>, u64), OpenError> {
    let core = open(rt, alloc, image, 0, Keep::All)?;
    let words = Vec::from_slice(alloc, core.opened());
    let actions = core.memory().played();
    drop(core);
    Ok((words?, actions))
}

/// A copy of the image that was taken.
pub(crate) fn taken<M: Memory>(
    rt: &impl Abort,
    alloc: Global,
    memory: &Witness<M>,
) -> Result<Vec<u64>, NoMemory> {
    match memory.image() {
        Some(image) => Vec::from_slice(alloc, image.as_slice()),
        None => panic!(rt; "no image"),
    }
}

/// The image that a power cut leaves of an image's opening, after this action.
fn cut_opening(
    rt: &impl Abort,
    alloc: Global,
    image: &[u64],
    at: u64,
    keep: Keep,
) -> Result<Vec<u64>, OpenError> {
    let core = open(rt, alloc, image, at, keep)?;
    let left = taken(rt, alloc, core.memory());
    drop(core);
    Ok(left?)
}

/// Whether an image's opening that is cut after this action, and then opened, leaves these words.
fn leads_to(
    rt: &impl Abort,
    alloc: Global,
    image: &[u64],
    at: u64,
    keep: Keep,
    words: &[u64],
) -> Result<bool, OpenError> {
    let left = cut_opening(rt, alloc, image, at, keep)?;
    let (again, _) = opened(rt, alloc, &left)?;
    Ok(again.as_slice() == words)
}

/// Whether each cut of an image's opening leads to these words.
fn each_leads_to(
    rt: &impl Abort,
    alloc: Global,
    image: &[u64],
    actions: u64,
    words: &[u64],
) -> Result<bool, OpenError> {
    let mut same = true;
    for at in 1..actions.saturating_add(1) {
        for keep in [Keep::Nothing, Keep::All] {
            same = leads_to(rt, alloc, image, at, keep, words)? && same;
        }
    }
    Ok(same)
}

/// What an opened image shows: its commits, how many rows are used up, and the stamp of the first row.
type Shown = (u64, u64, u64);

fn word(words: &[u64], place: usize) -> u64 {
    words.get(place).copied().unwrap_or(0)
}

/// What the image shows that is opened behind a cut of the script, and whether each cut of its opening leads to the
/// same words.
fn shown_after(
    rt: &impl Abort,
    alloc: Global,
    cut: u64,
    keep: Keep,
) -> Result<(Shown, bool), OpenError> {
    let image = image_after(alloc, cut, keep)?;
    let (words, actions) = opened(rt, alloc, &image)?;
    let same = each_leads_to(rt, alloc, &image, actions, &words)?;
    let shown = (word(&words, 514), word(&words, 517), word(&words, 2048));
    Ok((shown, same))
}

/// The script plays 27 actions: the entry of the row is stored by the fourth and fenced by the sixth, and the commit
/// word is stored by the fifteenth and fenced by the seventeenth.
fn expected(cut: u64, keep: Keep) -> Shown {
    let all = keep == Keep::All;
    if cut >= 17 || (all && cut >= 15) {
        (1, 1, 1)
    } else if cut >= 6 || (all && cut >= 4) {
        (0, 1, u64::MAX)
    } else {
        (0, 0, 0)
    }
}

#[test]
fn each_cut_and_each_cut_of_its_opening_show_the_same(rt: HostRuntime) -> Result<(), Fail> {
    for cut in 0..28 {
        for keep in [Keep::Nothing, Keep::All] {
            let shown = shown_after(&rt, rt.alloc(), cut, keep)?;
            assert!(rt; shown == (expected(cut, keep), true), "at {cut}");
        }
    }
    Ok(())
}
