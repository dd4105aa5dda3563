//! Copies, encodes or decodes an image.
ghost use Rattle.std.specs.Prelude.{◌≡◌, ◌≤◌, ◌*◌, length, IfOk, IfSome};
ghost use Rattle.pm_image.specs.Spelling.{IsWhole};

use crate::found::{Failed, Found};
use pm_image::{ImageError, NoMemory, decode, encode};
use std::alloc::Global;

const SEGMENT_WORDS: usize = 32768;

const PAGE_WORDS: usize = 512;

// What each round does.
#[derive(Clone, Copy)]
enum Work {
    Copy,
    Encode,
    Decode,
}

#[derive(Clone, Copy)]
pub(crate) struct Job {
    segments: usize,
    filled: usize,
    rounds: usize,
    work: Work,
    ghost some: { 1 ≤ segments },
    ghost most: { segments ≤ 128 },
}

fn read_work(word: &str) -> Option<Work> {
    match word {
        "copy" => Some(Work::Copy),
        "encode" => Some(Work::Encode),
        "decode" => Some(Work::Decode),
        _ => None,
    }
}

/// The segments (1 to 128), the filled pages of each, the rounds, and the work.
pub(crate) fn read(words: &[String]) -> Option<Job> {
    let [_program, _measure, segments, filled, rounds, work] = words else {
        return None;
    };
    let segments = segments.parse::<usize>().ok()?;
    if segments < 1 || 128 < segments {
        return None;
    }
    let filled = filled.parse::<usize>().ok()?;
    let rounds = rounds.parse::<usize>().ok()?;
    let work = read_work(work.as_str())?;
    Some(Job {
        segments,
        filled,
        rounds,
        work,
    })
}

// The words of an image whose segments begin with that many filled pages.
fn image(alloc: Global, segments: usize, filled: usize) -> Result<Vec<u64>, NoMemory>
    requires some { 1 ≤ segments }
    requires most { segments ≤ 128 }
    ensures { IfOk result (λ words. IsWhole words.items) }
{
    let mut words = Vec::new(alloc);
    words.resize(SEGMENT_WORDS * segments, 0)?;
    for (place, word) in words.iter_mut().enumerate() {
        if place % SEGMENT_WORDS / PAGE_WORDS < filled {
            *word = (place as u64)
                .wrapping_add(1)
                .wrapping_mul(0x9e37_79b9_7f4a_7c15);
        }
    }
    Ok(words)
}

fn copy(alloc: Global, bytes: &[u8]) -> Result<Vec<u8>, NoMemory> {
    let mut copied = Vec::with_capacity(alloc, bytes.len())?;
    copied.extend_from_slice(bytes)?;
    Ok(copied)
}

// One item of those, another one in each round.
fn sample<T: Copy + Drop + Into<u64>>(items: &[T], round: usize) -> u64 {
    match items.get(round % 4096) {
        Some(item) => (*item).into(),
        None => 0,
    }
}

fn worked(alloc: Global, job: Job) -> Result<u64, ImageError> {
    let words = image(alloc, job.segments, job.filled)?;
    let bytes = encode(alloc, words.as_slice())?;
    let mut sum: u64 = 0;
    for round in 0..job.rounds {
        let made = match job.work {
            Work::Copy => sample(copy(alloc, bytes.as_slice())?.as_slice(), round),
            Work::Encode => sample(encode(alloc, words.as_slice())?.as_slice(), round),
            Work::Decode => sample(decode(alloc, bytes.as_slice())?.as_slice(), round),
        };
        sum = sum.wrapping_add(made);
    }
    Ok(sum)
}

/// A small job of decoding.
pub(crate) fn small() -> Job {
    Job {
        segments: 2,
        filled: 3,
        rounds: 5,
        work: Work::Decode,
    }
}

/// A sum over what each round made.
pub(crate) fn run(alloc: Global, job: Job) -> Result<Found, Failed> {
    match worked(alloc, job) {
        Ok(sum) => Ok(Found::Sum(sum)),
        Err(error) => Err(Failed::Image(error)),
    }
}
