//! Plays parts that are spread over a device. Each round plays one part of each of 16 sessions: 8 stores, 8 flushes and
//! a fence. All rounds write the same 256 words, which lie anywhere in the device, so that they stay in the processor's
//! cache.
ghost use Rattle.std.specs.Prelude.{◌<◌, ◌≤◌, length};

use crate::found::{Failed, Found};
use pm_model::{Action, LINE_WORDS, Memory, NoMemory, Place, Plain, SESSIONS, fresh, mix};
use std::alloc::Global;

const STORES: u64 = 8;

const WORDS: u64 = 256;

// One of the words, which a number chooses.
fn pick<M: Memory>(memory: &M, number: u64) -> Place
    ensures { result.0 < length (M.device memory.now).cached }
{
    let word = mix(number % WORDS);
    Place((word % u64::from(memory.len())) as u32)
}

// Stores into the part's words, where they are clean.
fn store_words<M: Memory>(memory: &mut M, session: u8, first: u64)
    requires { session ≤ 16 }
{
    for k in 0..STORES {
        let number = first.wrapping_add(k);
        let place = pick(memory, number);
        if memory.is_clean(place) {
            memory.act(
                session,
                Action::Store {
                    place,
                    value: number,
                },
            );
        }
    }
}

// Flushes the lines of the part's words.
fn flush_words<M: Memory>(memory: &mut M, session: u8, first: u64)
    requires { session ≤ 16 }
{
    for k in 0..STORES {
        let place = pick(memory, first.wrapping_add(k));
        let line = place.0 / LINE_WORDS;
        memory.act(session, Action::Flush { line });
    }
}

// Plays a part, and loads its first word.
fn play_part<M: Memory>(memory: &mut M, session: u8, first: u64) -> u64
    requires { session ≤ 16 }
{
    store_words(memory, session, first);
    flush_words(memory, session, first);
    memory.act(session, Action::Fence);
    memory.load(pick(memory, first))
}

// Plays a part of each session.
fn play_round<M: Memory>(memory: &mut M, round: u64) -> u64 {
    let mut sum: u64 = 0;
    for session in 1..SESSIONS + 1 {
        let part = round.wrapping_mul(16).wrapping_add(u64::from(session));
        sum = sum.wrapping_add(play_part(memory, session, part.wrapping_mul(STORES)));
    }
    sum
}

fn play_rounds(alloc: Global, segments: u32, rounds: u64) -> Result<u64, NoMemory>
    requires one_or_more { 1 ≤ segments }
    requires most { segments ≤ 128 }
{
    let mut memory = Plain::new(alloc, fresh(alloc, segments)?)?;
    let mut sum: u64 = 0;
    for round in 0..rounds {
        sum = sum.wrapping_add(play_round(&mut memory, round));
    }
    Ok(sum)
}

#[derive(Clone, Copy)]
pub(crate) struct Job {
    segments: u32,
    rounds: u64,
    ghost some: { 1 ≤ segments },
    ghost most: { segments ≤ 128 },
}

/// The segments (1 to 128) and the rounds.
pub(crate) fn read(words: &[String]) -> Option<Job> {
    let [_program, _measure, segments, rounds] = words else {
        return None;
    };
    let segments = segments.parse::<u32>().ok()?;
    if segments < 1 || 128 < segments {
        return None;
    }
    let rounds = rounds.parse::<u64>().ok()?;
    Some(Job { segments, rounds })
}

/// A small job.
pub(crate) fn small() -> Job {
    Job {
        segments: 1,
        rounds: 20,
    }
}

/// The sum of what is loaded from the stored words.
pub(crate) fn run(alloc: Global, job: Job) -> Result<Found, Failed> {
    match play_rounds(alloc, job.segments, job.rounds) {
        Ok(sum) => Ok(Found::Checksum(sum)),
        Err(_) => Err(Failed::NoMemory),
    }
}
