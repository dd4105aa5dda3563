//! Worked runs once more, played by the program.
ghost use Rattle.mv_model.specs.History.{IsSession};

use arrayvec::ArrayVec;
use mv_model::{
    BoxedShape, Call, Column, Holding, Kind, Name, NoMemory, Reply, Shape, TableState, Value,
    Values,
};
use std::alloc::Global;
use std::test::Fail;

/// A statement on the table `t a:int`.
#[derive(Clone, Copy)]
enum Statement {
    Create,
    Begin,
    Insert(i64),
    Update(u32, i64),
    Get(u32),
    Delete(u32),
    Count,
    Commit,
    Abort,
}

/// What a reply says.
#[derive(Clone, Copy, PartialEq, Eq)]
enum Said {
    Created,
    Exists,
    Began(u64, u64),
    Row(u32),
    Number(i64),
    Deleted,
    HeldBy(u8),
    EndedBy(u64),
    Counted(u32),
    Committed(u64),
    Aborted,
    NoRow,
    NoTxn,
    Other,
}

fn name(text: &str) -> Name {
    Name::read(text).unwrap_or_default()
}

fn values(alloc: Global, number: i64) -> Result<Values, NoMemory> {
    let mut list = Values::with_room(alloc, 1)?;
    list.push(Value::Int(number));
    Ok(Values::from(list))
}

fn create(alloc: Global) -> Result<Call, NoMemory> {
    let mut columns = ArrayVec::new();
    columns.push(Column {
        name: name("a"),
        kind: Kind::Int,
    });
    let Some(shape) = Shape::of(columns) else {
        return Ok(Call::Abort);
    };
    Ok(Call::Create {
        table: name("t"),
        shape: BoxedShape::of(alloc, shape)?,
    })
}

fn call(alloc: Global, statement: Statement) -> Result<Call, NoMemory> {
    let table = name("t");
    match statement {
        Statement::Create => create(alloc),
        Statement::Begin => Ok(Call::Begin),
        Statement::Insert(number) => Ok(Call::Insert {
            table,
            values: values(alloc, number)?,
        }),
        Statement::Update(row, number) => Ok(Call::Update {
            table,
            row,
            values: values(alloc, number)?,
        }),
        Statement::Get(row) => Ok(Call::Get { table, row }),
        Statement::Delete(row) => Ok(Call::Delete { table, row }),
        Statement::Count => Ok(Call::Count { table, pred: None }),
        Statement::Commit => Ok(Call::Commit),
        Statement::Abort => Ok(Call::Abort),
    }
}

fn number_in(values: &Values) -> Said {
    match values.as_slice() {
        [Value::Int(number)] => Said::Number(*number),
        _ => Said::Other,
    }
}

fn what(reply: &Reply) -> Said {
    match reply {
        Reply::Created => Said::Created,
        Reply::TableExists => Said::Exists,
        Reply::Began { txn, snapshot } => Said::Began(*txn, *snapshot),
        Reply::Row { row } => Said::Row(*row),
        Reply::Values(values) => number_in(values),
        Reply::Deleted => Said::Deleted,
        Reply::Conflict(Holding::Holder(session)) => Said::HeldBy(*session),
        Reply::Conflict(Holding::Number(number)) => Said::EndedBy(*number),
        Reply::Count(count) => Said::Counted(*count),
        Reply::Committed { number } => Said::Committed(*number),
        Reply::Aborted => Said::Aborted,
        Reply::NoRow => Said::NoRow,
        Reply::NoTxn => Said::NoTxn,
        _ => Said::Other,
    }
}

/// Which of two sessions.
#[derive(Clone, Copy)]
enum Who {
    First,
    Second,
}

fn session(who: Who) -> u8
    ensures { IsSession result }
{
    match who {
        Who::First => 1,
        Who::Second => 2,
    }
}

/// Answers the call as the state says, and goes on to the next state.
fn say(state: &mut TableState, who: Who, call: &Call) -> Result<Said, NoMemory> {
    let session = session(who);
    let reply = state.answer(session, call)?;
    let said = what(&reply);
    let next = state.next(session, call, &reply);
    drop(reply);
    next?;
    Ok(said)
}

/// The same with a copy of the call.
fn say_copy(state: &mut TableState, who: Who, call: &Call) -> Result<Said, NoMemory> {
    let copy = call.copy()?;
    let said = say(state, who, &copy);
    drop(copy);
    said
}

fn say_statement(
    alloc: Global,
    state: &mut TableState,
    who: Who,
    statement: Statement,
) -> Result<Said, NoMemory> {
    let call = call(alloc, statement)?;
    let said = say_copy(state, who, &call);
    drop(call);
    said
}

/// Whether each statement is answered as it stands beside it.
fn goes_so(
    alloc: Global,
    state: &mut TableState,
    run: &[(Who, Statement, Said)],
) -> Result<bool, NoMemory> {
    for (who, statement, wanted) in run {
        if say_statement(alloc, state, *who, *statement)? != *wanted {
            return Ok(false);
        }
    }
    Ok(true)
}

/// Whether a run from the empty state is answered so.
fn replays(alloc: Global, run: &[(Who, Statement, Said)]) -> Result<bool, NoMemory> {
    let mut state = TableState::empty(alloc);
    let goes = goes_so(alloc, &mut state, run);
    drop(state);
    goes
}

/// Each of two transactions changes a row that the other has read, and both commit.
#[test]
fn write_skew(rt: HostRuntime) -> Result<(), Fail> {
    let run = [
        (Who::First, Statement::Create, Said::Created),
        (Who::First, Statement::Create, Said::Exists),
        (Who::First, Statement::Begin, Said::Began(1, 0)),
        (Who::First, Statement::Insert(7), Said::Row(0)),
        (Who::First, Statement::Insert(7), Said::Row(1)),
        (Who::First, Statement::Commit, Said::Committed(1)),
        (Who::First, Statement::Begin, Said::Began(2, 1)),
        (Who::Second, Statement::Begin, Said::Began(3, 1)),
        (Who::First, Statement::Get(1), Said::Number(7)),
        (Who::Second, Statement::Get(0), Said::Number(7)),
        (Who::First, Statement::Update(0, 0), Said::Row(2)),
        (Who::Second, Statement::Update(0, 0), Said::HeldBy(1)),
        (Who::Second, Statement::Update(1, 0), Said::Row(3)),
        (Who::First, Statement::Commit, Said::Committed(2)),
        (Who::Second, Statement::Commit, Said::Committed(3)),
    ];
    assert!(rt; replays(rt.alloc(), run.as_slice())?);
    Ok(())
}

/// The first to end a row holds it until it aborts; where it commits, its commit is named.
#[test]
fn first_writer(rt: HostRuntime) -> Result<(), Fail> {
    let run = [
        (Who::First, Statement::Get(0), Said::NoTxn),
        (Who::First, Statement::Create, Said::Created),
        (Who::First, Statement::Begin, Said::Began(1, 0)),
        (Who::First, Statement::Insert(-7), Said::Row(0)),
        (Who::First, Statement::Count, Said::Counted(1)),
        (Who::First, Statement::Commit, Said::Committed(1)),
        (Who::First, Statement::Begin, Said::Began(2, 1)),
        (Who::Second, Statement::Begin, Said::Began(3, 1)),
        (Who::First, Statement::Delete(0), Said::Deleted),
        (Who::First, Statement::Get(0), Said::NoRow),
        (Who::Second, Statement::Delete(0), Said::HeldBy(1)),
        (Who::First, Statement::Abort, Said::Aborted),
        (Who::Second, Statement::Delete(0), Said::Deleted),
        (Who::First, Statement::Begin, Said::Began(4, 1)),
        (Who::Second, Statement::Commit, Said::Committed(2)),
        (Who::First, Statement::Delete(0), Said::EndedBy(2)),
        (Who::First, Statement::Count, Said::Counted(1)),
    ];
    assert!(rt; replays(rt.alloc(), run.as_slice())?);
    Ok(())
}
