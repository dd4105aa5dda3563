//! Checks a sound image that is full of live blocks. The image has a table of 16 columns for every four segments, whose
//! arrays take the pages chunk by chunk, and as many segments of entries for each transaction object. Each table has
//! 1,536 rows, created and ended by commit 1.
ghost use Rattle.std.specs.Prelude.{◌≤◌};

use crate::filling::fill;
use crate::found::{Failed, Found};
use img_check::{CheckError, check};
use pm_model::fresh;
use std::alloc::Global;

#[derive(Clone, Copy)]
pub(crate) struct Job {
    segments: u32,
    rounds: u64,
    ghost some: { 4 ≤ segments },
    ghost most: { segments ≤ 128 },
}

/// The segments (4 to 128), and how often the image is checked.
pub(crate) fn read(words: &[String]) -> Option<Job> {
    let [_program, _measure, segments, rounds] = words else {
        return None;
    };
    let segments = segments.parse::<u32>().ok()?;
    if segments < 4 || 128 < segments {
        return None;
    }
    let rounds = rounds.parse::<u64>().ok()?;
    Some(Job { segments, rounds })
}

/// A small job.
pub(crate) fn small() -> Job {
    Job {
        segments: 4,
        rounds: 2,
    }
}

// Makes the image and checks it so often, and gives how many live blocks it has.
fn checked(alloc: Global, job: Job) -> Result<u32, CheckError> {
    let mut words = fresh(alloc, job.segments)?;
    let blocks = fill(&mut words, job.segments);
    for _ in 0..job.rounds {
        check(alloc, &words)?;
    }
    Ok(blocks)
}

pub(crate) fn run(alloc: Global, job: Job) -> Result<Found, Failed> {
    match checked(alloc, job) {
        Ok(blocks) => Ok(Found::Sound {
            blocks,
            times: job.rounds,
        }),
        Err(error) => Err(Failed::Check(error)),
    }
}
