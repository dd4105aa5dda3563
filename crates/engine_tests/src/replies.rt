//! Statements on a formatted stage image of one segment, the replies to them and the actions that they play.
use crate::images::opened;
use engine_core::{Core, NoMemory};
use mv_model::{Call, Entry, Reply, Value, Values};
use pm_model::{Memory, Plain};
use stage_calls::{Statement, call, fresh_core, say};
use std::alloc::Global;
use std::test::Fail;

/// What a reply says.
#[derive(Clone, Copy, PartialEq, Eq)]
enum Said {
    Began(u64, u64),
    Row(u32),
    Number(i64),
    Full(u32, u32),
    Committed(u64),
    AlreadyOpen,
    NoRow,
    NoTxn,
    ReadOnly,
    Spent,
    Other,
}

fn number_in(values: &Values) -> Said {
    match values.as_slice() {
        [Value::Int(number)] => Said::Number(*number),
        _ => Said::Other,
    }
}

fn what(reply: &Reply) -> Said {
    match reply {
        Reply::Began { txn, snapshot } => Said::Began(*txn, *snapshot),
        Reply::Row { row } => Said::Row(*row),
        Reply::Values(values) => number_in(values),
        Reply::Full { need, largest } => Said::Full(*need, *largest),
        Reply::Committed { number } => Said::Committed(*number),
        Reply::AlreadyOpen => Said::AlreadyOpen,
        Reply::NoRow => Said::NoRow,
        Reply::NoTxn => Said::NoTxn,
        Reply::ReadOnly => Said::ReadOnly,
        Reply::Spent => Said::Spent,
        _ => Said::Other,
    }
}

fn last_said(history: &[Entry]) -> Said {
    match history.last() {
        Some(entry) => what(&entry.reply),
        None => Said::Other,
    }
}

/// Whether each statement plays so many actions, and is answered so.
fn goes_so<M: Memory>(
    alloc: Global,
    core: &mut Core<M>,
    run: &[(Statement, u64, Said)],
) -> Result<bool, NoMemory> {
    for (statement, actions, wanted) in run {
        let played = say(alloc, core, *statement, u64::MAX)?;
        if played != *actions || last_said(core.history()) != *wanted {
            return Ok(false);
        }
    }
    Ok(core.history().iter().all(|entry| entry.answered))
}

/// Whether a run goes so on a formatted image with some words changed by hand.
fn replays(
    alloc: Global,
    changes: &[(usize, u64)],
    run: &[(Statement, u64, Said)],
) -> Result<bool, Fail> {
    let mut core = opened(alloc, changes)?;
    let goes = goes_so(alloc, &mut core, run);
    drop(core);
    Ok(goes?)
}

#[test]
fn a_transaction_plays_27_actions(rt: HostRuntime) -> Result<(), Fail> {
    let run = [
        (Statement::Begin, 3, Said::Began(1, 0)),
        (Statement::Insert(7), 6, Said::Row(0)),
        (Statement::Get(0), 0, Said::Number(7)),
        (Statement::Commit, 18, Said::Committed(1)),
    ];
    assert!(rt; replays(rt.alloc(), &[], run.as_slice())?);
    Ok(())
}

#[test]
fn refusals_play_nothing(rt: HostRuntime) -> Result<(), Fail> {
    let run = [
        (Statement::Insert(7), 0, Said::NoTxn),
        (Statement::Begin, 3, Said::Began(1, 0)),
        (Statement::Begin, 0, Said::AlreadyOpen),
        (Statement::Get(0), 0, Said::NoRow),
        (Statement::Commit, 3, Said::ReadOnly),
    ];
    assert!(rt; replays(rt.alloc(), &[], run.as_slice())?);
    Ok(())
}

/// With all rows of the table used up, an insert finds no room.
#[test]
fn a_full_table_has_no_row(rt: HostRuntime) -> Result<(), Fail> {
    let run = [
        (Statement::Begin, 3, Said::Began(1, 0)),
        (Statement::Insert(7), 0, Said::Full(1, 0)),
        (Statement::Commit, 3, Said::ReadOnly),
    ];
    assert!(rt; replays(rt.alloc(), &[(517, 4_096)], run.as_slice())?);
    Ok(())
}

/// With all commit numbers used up, a transaction that wrote stays open.
#[test]
fn the_last_commit_number_is_spent(rt: HostRuntime) -> Result<(), Fail> {
    let last = (1 << 40) - 1;
    let run = [
        (Statement::Begin, 3, Said::Began(1, last)),
        (Statement::Insert(7), 6, Said::Row(0)),
        (Statement::Commit, 0, Said::Spent),
        (Statement::Begin, 0, Said::AlreadyOpen),
        (Statement::Get(0), 0, Said::Number(7)),
    ];
    assert!(rt; replays(rt.alloc(), &[(514, last)], run.as_slice())?);
    Ok(())
}

fn inserts<M: Memory>(alloc: Global, core: &mut Core<M>, count: i64) -> Result<(), NoMemory> {
    for number in 0..count {
        let _played = say(alloc, core, Statement::Insert(number), u64::MAX)?;
    }
    Ok(())
}

fn fills_the_object<M: Memory>(alloc: Global, core: &mut Core<M>) -> Result<bool, NoMemory> {
    let _played = say(alloc, core, Statement::Begin, u64::MAX)?;
    inserts(alloc, core, 60)?;
    let run = [
        (Statement::Insert(60), 0, Said::Full(1, 0)),
        (Statement::Get(59), 0, Said::Number(59)),
    ];
    goes_so(alloc, core, run.as_slice())
}

/// The object of a transaction has room for 60 rows.
#[test]
fn a_full_object_has_no_entry(rt: HostRuntime) -> Result<(), Fail> {
    let mut core = fresh_core(rt.alloc(), 1)?;
    let fills = fills_the_object(rt.alloc(), &mut core);
    drop(core);
    assert!(rt; fills?);
    Ok(())
}

fn has_the_table<M: Memory>(core: &Core<M>, said: &Call) -> bool {
    match said {
        Call::Get { table, .. } => {
            core.table(table) == Some(0) && core.shape(0).columns().len() == 1
        }
        _ => false,
    }
}

fn shows_the_table(alloc: Global) -> Result<bool, Fail> {
    let said = call(alloc, Statement::Get(0))?;
    let core: Core<Plain> = fresh_core(alloc, 1)?;
    let has = has_the_table(&core, &said);
    drop(core);
    drop(said);
    Ok(has)
}

#[test]
fn a_core_has_one_table(rt: HostRuntime) -> Result<(), Fail> {
    assert!(rt; shows_the_table(rt.alloc())?);
    Ok(())
}
