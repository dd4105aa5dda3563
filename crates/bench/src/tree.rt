//! Looks into a leaf, or for the leaf of an integer.
//! - `mix`: each round mixes a number, as the other works do.
//! - `matches`: each round looks for a fingerprint in a full leaf.
//! - `prints`: each round makes the fingerprint of an integer.
//! - `pairs`: each round lists the pairs of a full leaf and takes their greater half.
//! - `leaf`: each round finds the leaf of an integer.
ghost use Rattle.std.specs.Prelude.{◌≡◌, ◌<◌, ◌≤◌, IfOk};

use crate::found::{Failed, Found};
use fp_inner::{Inner, NoMemory, Probe, Steps};
use fp_leaf::{greater_half, int_fingerprint, matches, pairs};
use mv_model::Kind;
use pm_model::{Memory, PPtr, Place, Plain, fresh, mix};
use std::alloc::Global;
use std::marker::Brand;
use std::sync::ledger::{Blank, Ledger};
use test_ground::even_index;

fn look<L: Ledger>(alloc: Global, rounds: u64, leaves: u32, blank: Blank) -> Result<u64, NoMemory>
    requires name { blank.name ≡ L.name }
    requires parts { blank.parts ≡ L.parts }
    requires share { 0 < L.parts }
    requires some { 0 < leaves }
    requires few { leaves ≤ 100000 }
{
    let memory = Plain::new(alloc, fresh(alloc, 1)?)?;
    let inner = even_index(alloc, &memory, leaves)?;
    let mut steps = Steps::<L>::none(blank);
    let mut sum: u64 = 0;
    for round in 0..rounds {
        let key = (1 << 63) + mix(round) % (24 * u64::from(leaves));
        let at = inner.leaf_for(&memory, &Probe::Int(key), &mut steps);
        sum = sum.wrapping_add(inner.leaf_at(at).word());
    }
    Ok(sum)
}

fn run_look(alloc: Global, rounds: u64, leaves: u32) -> Result<u64, NoMemory>
    requires some { 0 < leaves }
    requires few { leaves ≤ 100000 }
{
    look::<Brand>(alloc, rounds, leaves, Blank::new(1))
}

// A leaf with the key words of 48 mixed numbers.
fn full_leaf() -> [u64; 104] {
    let mut leaf = [0u64; 104];
    leaf[0] = 0xffff_ffff_ffff;
    for slot in 0..48 {
        let key = mix(slot as u64);
        leaf[2 + slot / 8] |= u64::from(int_fingerprint(key)) << (8 * (slot % 8));
        leaf[8 + 2 * slot] = key;
        leaf[9 + 2 * slot] = slot as u64;
    }
    leaf
}

fn run_matches(rounds: u64) -> u64 {
    let leaf = full_leaf();
    let mut sum: u64 = 0;
    for round in 0..rounds {
        sum = sum.wrapping_add(matches(&leaf, (mix(round) % 256) as u8));
    }
    sum
}

fn run_mix(rounds: u64) -> u64 {
    let mut sum: u64 = 0;
    for round in 0..rounds {
        sum = sum.wrapping_add(mix(round) % 256);
    }
    sum
}

fn run_prints(rounds: u64) -> u64 {
    let mut sum: u64 = 0;
    for round in 0..rounds {
        sum = sum.wrapping_add(u64::from(int_fingerprint(mix(round))));
    }
    sum
}

fn run_pairs(alloc: Global, rounds: u64) -> Result<u64, NoMemory> {
    let mut leaf = full_leaf();
    let mut sum: u64 = 0;
    for round in 0..rounds {
        leaf[9] = round;
        let list = pairs(alloc, &leaf)?;
        if list.len() == 48 {
            sum = sum.wrapping_add(greater_half(&list));
        }
    }
    Ok(sum)
}

// What each round does.
#[derive(Clone, Copy)]
enum Work {
    Mix,
    Matches,
    Prints,
    Pairs,
    Leaf,
}

#[derive(Clone, Copy)]
pub(crate) struct Job {
    rounds: u64,
    leaves: u32,
    work: Work,
    ghost some: { 0 < leaves },
    ghost few: { leaves ≤ 100000 },
}

fn read_work(word: &str) -> Option<Work> {
    match word {
        "mix" => Some(Work::Mix),
        "matches" => Some(Work::Matches),
        "prints" => Some(Work::Prints),
        "pairs" => Some(Work::Pairs),
        "leaf" => Some(Work::Leaf),
        _ => None,
    }
}

/// The rounds, how many leaves there are (1 to 100,000), and the work.
pub(crate) fn read(words: &[String]) -> Option<Job> {
    let [_program, _measure, rounds, leaves, work] = words else {
        return None;
    };
    let rounds = rounds.parse::<u64>().ok()?;
    let leaves = leaves.parse::<u32>().ok()?;
    if leaves < 1 || 100_000 < leaves {
        return None;
    }
    let work = read_work(work.as_str())?;
    Some(Job {
        rounds,
        leaves,
        work,
    })
}

/// A small job that finds leaves.
pub(crate) fn small() -> Job {
    Job {
        rounds: 1000,
        leaves: 100,
        work: Work::Leaf,
    }
}

fn worked(alloc: Global, job: Job) -> Result<u64, NoMemory> {
    match job.work {
        Work::Mix => Ok(run_mix(job.rounds)),
        Work::Matches => Ok(run_matches(job.rounds)),
        Work::Prints => Ok(run_prints(job.rounds)),
        Work::Pairs => run_pairs(alloc, job.rounds),
        Work::Leaf => run_look(alloc, job.rounds, job.leaves),
    }
}

/// The sum of what was found.
pub(crate) fn run(alloc: Global, job: Job) -> Result<Found, Failed> {
    match worked(alloc, job) {
        Ok(sum) => Ok(Found::Sum(sum)),
        Err(_) => Err(Failed::NoMemory),
    }
}
