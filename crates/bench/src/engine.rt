//! Steps a session of a stage image through inserts. After each 60 inserts it commits and begins anew.
ghost use Rattle.std.specs.Prelude.{◌≤◌};

use crate::found::{Failed, Found};
use engine_core::{Core, NoMemory};
use mv_model::{Entry, Reply};
use pm_model::Memory;
use stage_calls::{Statement, fresh_core, say};
use std::alloc::Global;

// The inserts of a transaction: its object has room for so many entries.
const INSERTS: u32 = 60;

#[derive(Clone, Copy)]
pub(crate) struct Job {
    segments: u32,
    inserts: u32,
    ghost some: { 1 ≤ segments },
    ghost most: { segments ≤ 128 },
}

/// The segments (1 to 128) and the inserts.
pub(crate) fn read(words: &[String]) -> Option<Job> {
    let [_program, _measure, segments, inserts] = words else {
        return None;
    };
    let segments = segments.parse::<u32>().ok()?;
    if segments < 1 || 128 < segments {
        return None;
    }
    let inserts = inserts.parse::<u32>().ok()?;
    Some(Job { segments, inserts })
}

/// A small job.
pub(crate) fn small() -> Job {
    Job {
        segments: 1,
        inserts: 62,
    }
}

// Says a statement to its end.
fn finish<M: Memory>(
    alloc: Global,
    core: &mut Core<M>,
    statement: Statement,
) -> Result<(), NoMemory> {
    say(alloc, core, statement, u64::MAX)?;
    Ok(())
}

fn say_inserts<M: Memory>(alloc: Global, core: &mut Core<M>, inserts: u32) -> Result<(), NoMemory> {
    for number in 0..inserts {
        if number % INSERTS == 0 {
            finish(alloc, core, Statement::Commit)?;
            finish(alloc, core, Statement::Begin)?;
        }
        finish(alloc, core, Statement::Insert(i64::from(number)))?;
    }
    finish(alloc, core, Statement::Commit)
}

fn count_rows(history: &[Entry]) -> usize {
    history
        .iter()
        .filter(|entry| matches!(entry.reply, Reply::Row { .. }))
        .count()
}

/// How many statements there were, how many actions they played, and how many rows they created.
pub(crate) fn run(alloc: Global, job: Job) -> Result<Found, Failed> {
    let Ok(mut core) = fresh_core(alloc, job.segments) else {
        return Err(Failed::NoMemory);
    };
    let said = say_inserts(alloc, &mut core, job.inserts);
    let found = Found::Stepped {
        statements: core.started(),
        actions: core.played(),
        rows: count_rows(core.history()),
    };
    drop(core);
    match said {
        Ok(()) => Ok(found),
        Err(_) => Err(Failed::NoMemory),
    }
}
