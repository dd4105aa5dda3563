//! Allocates and frees blocks. 1,344 words, the owners, hold the pointers of the blocks.
//! - `mixed`: each round takes an owner by a mixed number. Where it owns no block, one of mixed size is allocated into
//!   it, and else its block is freed.
//! - `turns`: the same with the owners in their order: each gets a block, then each is freed, and so on.
//! - `holes`: at first each owner gets a page, and every second one is freed. Then each round allocates a block of two
//!   pages, for which no hole has room, or frees it.
//! - `device`: each round plays the actions of an allocation, which nothing plans.
//! - `reopen`: each round reads the index from the words of a formatted image.
ghost use Rattle.std.specs.Prelude.{◌≡◌, ◌+◌, ◌*◌, ◌<◌, ◌≤◌, IfOk};
ghost use Rattle.pm_model.specs.Plain.{device_of};
ghost use Rattle.bench.specs.Uses.{IsOwner, IsInUse, IsAtRest};

use crate::found::{Failed, Found};
use crate::steps::{play_allocation, take_turn};
use heap_palloc::{AllocError, Heap, NoMemory, reopen};
use pm_model::{Memory, PAGE_WORDS, Place, Plain, fresh, mix};
use std::alloc::Global;

// The owners are the words of pages 1 to 3 from this place on, behind the lanes: no transaction uses them here.
const FIRST_OWNER: u32 = 704;

const OWNERS: u64 = 1344;

// What each round does.
#[derive(Clone, Copy)]
enum Work {
    Mixed,
    Turns,
    Holes,
    Device,
    Reopen,
}

#[derive(Clone, Copy)]
pub(crate) struct Job {
    segments: u32,
    rounds: u64,
    work: Work,
    ghost some: { 1 ≤ segments },
    ghost most: { segments ≤ 128 },
}

fn read_work(word: &str) -> Option<Work> {
    match word {
        "mixed" => Some(Work::Mixed),
        "turns" => Some(Work::Turns),
        "holes" => Some(Work::Holes),
        "device" => Some(Work::Device),
        "reopen" => Some(Work::Reopen),
        _ => None,
    }
}

/// The segments (1 to 128), the rounds, and the work.
pub(crate) fn read(words: &[String]) -> Option<Job> {
    let [_program, _measure, segments, rounds, work] = words else {
        return None;
    };
    let segments = segments.parse::<u32>().ok()?;
    if segments < 1 || 128 < segments {
        return None;
    }
    let rounds = rounds.parse::<u64>().ok()?;
    let work = read_work(work.as_str())?;
    Some(Job {
        segments,
        rounds,
        work,
    })
}

// The owner with this number, counted round and round.
fn owner(number: u64) -> Place
    ensures { IsOwner result.0 }
{
    Place(FIRST_OWNER + (number % OWNERS) as u32)
}

// The words of a block, by a mixed number: of four blocks three are small ones, and one has up to eight pages.
fn mixed_words(number: u64) -> u32
    ensures some { 1 ≤ result }
    ensures most { result ≤ 32256 }
{
    let words = (number / 4 % 3840) as u32;
    if number % 4 == 0 {
        257 + words
    } else {
        1 + words % 256
    }
}

// Gives each owner a page, and takes every second one back.
fn make_holes<M: Memory>(alloc: Global, memory: &mut M, heap: &mut Heap) -> Result<u64, AllocError>
    requires { IsInUse (M.device memory.old) heap.old }
    ensures { IfOk result (λ _. IsInUse (M.device memory.new) heap.new) }
{
    let mut actions: u64 = 0;
    for number in 0..OWNERS {
        let played = take_turn(alloc, memory, heap, owner(number), PAGE_WORDS)?;
        actions = actions.wrapping_add(u64::from(played));
    }
    for number in 0..OWNERS / 2 {
        let played = take_turn(alloc, memory, heap, owner(2 * number), PAGE_WORDS)?;
        actions = actions.wrapping_add(u64::from(played));
    }
    Ok(actions)
}

// Whose turn it is in a round, and how many words its block gets.
fn turn(work: Work, round: u64) -> (Place, u32)
    ensures owner { IsOwner result.0.0 }
    ensures some { 1 ≤ result.1 }
    ensures most { result.1 ≤ 32256 }
{
    let number = mix(round);
    match work {
        Work::Holes => (owner(0), 2 * PAGE_WORDS),
        Work::Turns => (owner(round), mixed_words(number)),
        _ => (owner(number / 65_536), mixed_words(number)),
    }
}

fn take_turns<M: Memory>(
    alloc: Global,
    memory: &mut M,
    heap: &mut Heap,
    job: Job,
) -> Result<u64, AllocError>
    requires { IsInUse (M.device memory.old) heap.old }
{
    let mut actions = match job.work {
        Work::Holes => make_holes(alloc, memory, heap)?,
        _ => 0,
    };
    for round in 0..job.rounds {
        let (owner, words) = turn(job.work, round);
        let played = take_turn(alloc, memory, heap, owner, words)?;
        actions = actions.wrapping_add(u64::from(played));
    }
    Ok(actions)
}

fn play_rounds<M: Memory>(memory: &mut M, rounds: u64) -> u64
    requires { IsAtRest (M.device memory.old) }
{
    let mut actions: u64 = 0;
    for _ in 0..rounds {
        actions = actions.wrapping_add(u64::from(play_allocation(memory)));
    }
    actions
}

fn reopen_often<M: Memory>(alloc: Global, memory: &M, rounds: u64) -> Result<(), NoMemory> {
    for _ in 0..rounds {
        let _heap = reopen(alloc, memory)?;
    }
    Ok(())
}

// The sum of the owners' words.
fn sum_owners<M: Memory>(memory: &M) -> u64 {
    let mut sum: u64 = 0;
    for number in 0..OWNERS {
        sum = sum.wrapping_add(memory.load(owner(number)));
    }
    sum
}

// Does the rounds, and gives how many actions were played and the sum of the owners' words.
fn worked(alloc: Global, job: Job) -> Result<(u64, u64), AllocError> {
    let mut memory = Plain::new(alloc, fresh(alloc, job.segments)?)?;
    let actions = match job.work {
        Work::Device => play_rounds(&mut memory, job.rounds),
        Work::Reopen => {
            reopen_often(alloc, &memory, job.rounds)?;
            0
        }
        _ => {
            let mut heap = reopen(alloc, &memory)?;
            take_turns(alloc, &mut memory, &mut heap, job)?
        }
    };
    Ok((actions, sum_owners(&memory)))
}

/// A small job of mixed sizes.
pub(crate) fn small() -> Job {
    Job {
        segments: 8,
        rounds: 5000,
        work: Work::Mixed,
    }
}

/// How many actions were played, and the sum of the owners' words.
pub(crate) fn run(alloc: Global, job: Job) -> Result<Found, Failed> {
    match worked(alloc, job) {
        Ok((actions, sum)) => Ok(Found::Played { actions, sum }),
        Err(error) => Err(Failed::Heap(error)),
    }
}
