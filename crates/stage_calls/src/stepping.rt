ghost use Rattle.std.specs.Prelude.{◌≡◌, ◌≤◌, [], IfOk, IsTrue};
ghost use Rattle.engine_core.specs.Served.{insert_of, is_served, table_name};
ghost use Rattle.stage_calls.specs.Calls.{call_of};

use engine_core::{Core, NoMemory, OpenError, stage_fresh};
use mv_model::{Call, Name, Value, Values};
use pm_model::{Memory, Plain};
use std::alloc::Global;

/// A statement on the table `t a:int`.
#[derive(Clone, Copy)]
pub enum Statement {
    Begin,
    /// Creates a row with this value.
    Insert(i64),
    /// Reads the row of this number, from 0.
    Get(u32),
    Commit,
}

fn table() -> Name
    ensures { result ≡ table_name }
{
    let Some(name) = Name::read("t") else {
        unreachable!()
    };
    name
}

fn insert(alloc: Global, number: i64) -> Result<Call, NoMemory>
    ensures { IfOk result (λ said. said ≡ insert_of number) }
{
    let mut values = Values::with_room(alloc, 1)?;
    values.push(Value::Int(number));
    Ok(Call::Insert {
        table: table(),
        values: Values::from(values),
    })
}

/// The call of a statement.
pub fn call(alloc: Global, statement: Statement) -> Result<Call, NoMemory>
    ensures call { IfOk result (λ said. said ≡ call_of statement) }
    ensures served { IfOk result (λ said. IsTrue (is_served said)) }
{
    match statement {
        Statement::Begin => Ok(Call::Begin),
        Statement::Insert(number) => insert(alloc, number),
        Statement::Get(row) => Ok(Call::Get {
            table: table(),
            row,
        }),
        Statement::Commit => Ok(Call::Commit),
    }
}

/// A core over a formatted image of so many segments.
pub fn fresh_core(alloc: Global, segments: u32) -> Result<Core<Plain>, OpenError>
    requires one_or_more { 1 ≤ segments }
    requires most { segments ≤ 128 }
    ensures { IfOk result (λ core. core.history ≡ []) }
{
    let memory = Plain::new(alloc, stage_fresh(alloc, segments)?)?;
    Core::from_memory(alloc, memory)
}

/// Steps until the call in flight is replied, or so many actions were played since the opening.
fn play<M: Memory>(core: &mut Core<M>, cut: u64) {
    for _ in 0..65_536 {
        if !core.in_flight(1) || core.played() >= cut {
            break;
        }
        drop(core.step(1));
    }
}

/// Starts the statement's call, and steps until it is replied, or until so many actions were played since the opening.
/// It says how many actions it played. Where another call is in flight it does nothing.
pub fn say<M: Memory>(
    alloc: Global,
    core: &mut Core<M>,
    statement: Statement,
    cut: u64,
) -> Result<u64, NoMemory> {
    if core.in_flight(1) || core.started() == u32::MAX {
        return Ok(0);
    }
    let before = core.played();
    let said = call(alloc, statement)?;
    core.start(1, said)?;
    play(core, cut);
    Ok(core.played().saturating_sub(before))
}
