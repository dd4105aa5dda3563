// What each call comes to at its decision: its reply, the actions to play, and the transactions afterwards.
ghost use Rattle.std.specs.Prelude.{◌≡◌, ◌-◌, ◌^◌, ◌<◌, ◌≤◌, Some, None, [], ◌∷◌, IfOk, IsTrue, OnErr, length};
ghost use Rattle.mv_model.specs.declared.call.Call.TheVariants as call;
ghost use Rattle.mv_model.specs.declared.value.Value.TheVariants.{Int};
ghost use Rattle.engine_core.specs.Decided.{IsClosed, IsDecision, MayWantMemory};
ghost use Rattle.engine_core.specs.LogicalState.{is_seen as sees, within};
ghost use Rattle.engine_core.specs.Served.{get_of, insert_of, is_served};
ghost use Rattle.engine_core.specs.StageRules.{IsStage};
ghost use Rattle.stage_view.specs.StageView.{view_of};
ghost use Rattle.txn_object.specs.Object.{own_object};

use crate::layout::{STAGE_ROWS, born, ended, high, integer, key_word, value};
use crate::plans::{plan_close, plan_commit, plan_insert};
use crate::transactions::{Running, Transactions};
use mv_model::limits::MAX_COMMITS;
use mv_model::{Call, Reply, Value, Values};
use pm_model::{Memory, NoMemory, OBJECT_ENTRIES, Plan, last_commit};
use stage_object::plan_begin;
use std::alloc::Global;

/// A commit that gets its place in the history, and this number, once so many actions of its plan are left.
#[derive(Clone, Copy, Debug)]
pub(crate) struct Late {
    pub number: u64,
    pub left: u32,
}

/// What a call comes to.
#[derive(Drop)]
pub(crate) struct Decision {
    pub reply: Reply,
    /// The reply once more: one is for the history, and one for the caller.
    pub copy: Reply,
    pub plan: Option<Plan>,
    /// The transactions from the decision on. That of a commit is open until the call has its place.
    pub after: Transactions,
    /// When the call gets its place in the history, where that is not at the decision.
    pub late: Option<Late>,
}

/// Decides a call of session 1. Where memory is wanted and not there, the reply is that, and nothing changes; a refusal
/// takes no memory.
pub(crate) fn decide<M: Memory>(
    alloc: Global,
    memory: &M,
    now: Transactions,
    said: &Call,
) -> Decision
    requires stage { IsStage (M.device memory.now).cached now.running }
    requires served { IsTrue (is_served said.now) }
    requires begun { now.begun < 2 ^ 64 - 1 }
    ensures { IsDecision (M.device memory.now).cached now said.now result }
{
    match try_to_decide(alloc, memory, now, said) {
        Ok(decision) => decision,
        Err(_) => Decision {
            reply: Reply::NoMemory,
            copy: Reply::NoMemory,
            plan: None,
            after: now,
            late: None,
        },
    }
}

fn try_to_decide<M: Memory>(
    alloc: Global,
    memory: &M,
    now: Transactions,
    said: &Call,
) -> Result<Decision, NoMemory>
    requires stage { IsStage (M.device memory.now).cached now.running }
    requires served { IsTrue (is_served said.now) }
    requires begun { now.begun < 2 ^ 64 - 1 }
    ensures decided { IfOk result (λ decision. IsDecision (M.device memory.now).cached now said.now decision) }
    ensures memory { OnErr result (MayWantMemory (M.device memory.now).cached now said.now) }
{
    match now.running {
        None => decide_outside(alloc, memory, now.begun, said),
        Some(own) => decide_inside(alloc, memory, now.begun, own, said),
    }
}

// Decides a call while no transaction is open.
fn decide_outside<M: Memory>(
    alloc: Global,
    memory: &M,
    begun: u64,
    said: &Call,
) -> Result<Decision, NoMemory>
    requires stage { IsStage (M.device memory.now).cached None }
    requires served { IsTrue (is_served said.now) }
    requires begun { begun < 2 ^ 64 - 1 }
    ensures decided { IfOk result (λ decision.
        IsDecision (M.device memory.now).cached (record { begun = begun; running = None }) said.now decision) }
    ensures memory { OnErr result
        (MayWantMemory (M.device memory.now).cached (record { begun = begun; running = None }) said.now) }
{
    match said {
        Call::Begin => begin(alloc, memory, begun),
        _ => Ok(stand(
            Reply::NoTxn,
            Reply::NoTxn,
            Transactions {
                begun,
                running: None,
            },
        )),
    }
}

// Decides a call while a transaction is open.
fn decide_inside<M: Memory>(
    alloc: Global,
    memory: &M,
    begun: u64,
    own: Running,
    said: &Call,
) -> Result<Decision, NoMemory>
    requires stage { IsStage (M.device memory.now).cached (Some own) }
    requires served { IsTrue (is_served said.now) }
    ensures decided { IfOk result (λ decision.
        IsDecision (M.device memory.now).cached (record { begun = begun; running = Some own }) said.now decision) }
    ensures memory { OnErr result
        (MayWantMemory (M.device memory.now).cached (record { begun = begun; running = Some own }) said.now) }
{
    match said {
        Call::Begin => Ok(stand(
            Reply::AlreadyOpen,
            Reply::AlreadyOpen,
            Transactions {
                begun,
                running: Some(own),
            },
        )),
        Call::Commit => commit(alloc, memory, begun, own),
        Call::Get { row, .. } => get(alloc, memory, begun, own, *row),
        Call::Insert { values, .. } => match values.get(0) {
            Value::Int(number) => insert(alloc, memory, begun, own, *number),
            Value::Text(_) => unreachable!(),
        },
        _ => unreachable!(),
    }
}

// A reply that leaves all as it is, and takes no memory.
fn stand(reply: Reply, copy: Reply, now: Transactions) -> Decision
    ensures { result ≡ record { reply = reply; copy = copy; plan = None; after = now; late = None } }
{
    Decision {
        reply,
        copy,
        plan: None,
        after: now,
        late: None,
    }
}

fn begin<M: Memory>(alloc: Global, memory: &M, begun: u64) -> Result<Decision, NoMemory>
    requires stage { IsStage (M.device memory.now).cached None }
    requires begun { begun < 2 ^ 64 - 1 }
    ensures { IfOk result (λ decision.
        IsDecision (M.device memory.now).cached (record { begun = begun; running = None }) call.Begin decision) }
{
    let number = begun + 1;
    let snapshot = memory.load(last_commit());
    let plan = plan_begin(alloc, 1)?;
    Ok(Decision {
        reply: Reply::Began {
            txn: number,
            snapshot,
        },
        copy: Reply::Began {
            txn: number,
            snapshot,
        },
        plan: Some(plan),
        after: Transactions {
            begun: number,
            running: Some(Running {
                number,
                snapshot,
                rows: 0,
            }),
        },
        late: None,
    })
}

fn insert<M: Memory>(
    alloc: Global,
    memory: &M,
    begun: u64,
    own: Running,
    number: i64,
) -> Result<Decision, NoMemory>
    requires { IsStage (M.device memory.now).cached (Some own) }
    ensures decided { IfOk result (λ decision.
        IsDecision (M.device memory.now).cached (record { begun = begun; running = Some own })
        (insert_of number) decision) }
    ensures memory { OnErr result
        (MayWantMemory (M.device memory.now).cached (record { begun = begun; running = Some own }) (insert_of number)) }
{
    let row = memory.load(high()) as u32 + own.rows;
    if own.rows >= u32::from(OBJECT_ENTRIES) || row >= STAGE_ROWS {
        let now = Transactions {
            begun,
            running: Some(own),
        };
        return Ok(stand(
            Reply::Full {
                need: 1,
                largest: 0,
            },
            Reply::Full {
                need: 1,
                largest: 0,
            },
            now,
        ));
    }
    let plan = plan_insert(alloc, own.rows, row, key_word(number))?;
    Ok(Decision {
        reply: Reply::Row { row },
        copy: Reply::Row { row },
        plan: Some(plan),
        after: Transactions {
            begun,
            running: Some(Running {
                number: own.number,
                snapshot: own.snapshot,
                rows: own.rows + 1,
            }),
        },
        late: None,
    })
}

fn get<M: Memory>(
    alloc: Global,
    memory: &M,
    begun: u64,
    own: Running,
    row: u32,
) -> Result<Decision, NoMemory>
    requires { IsStage (M.device memory.now).cached (Some own) }
    ensures decided { IfOk result (λ decision.
        IsDecision (M.device memory.now).cached (record { begun = begun; running = Some own }) (get_of row) decision) }
    ensures memory { OnErr result
        (MayWantMemory (M.device memory.now).cached (record { begun = begun; running = Some own }) (get_of row)) }
{
    let now = Transactions {
        begun,
        running: Some(own),
    };
    if row >= STAGE_ROWS || !is_seen(memory, own, row) {
        return Ok(stand(Reply::NoRow, Reply::NoRow, now));
    }
    let values = one_value(alloc, integer(memory.load(value(row))))?;
    let copy = values.copy()?;
    Ok(stand(Reply::Values(values), Reply::Values(copy), now))
}

fn one_value(alloc: Global, number: i64) -> Result<Values, NoMemory>
    ensures { IfOk result (λ values. values ≡ Int number ∷ []) }
{
    let mut values = Values::with_room(alloc, 1)?;
    values.push(Value::Int(number));
    Ok(Values::from(values))
}

// Whether the open transaction sees a row.
fn is_seen<M: Memory>(memory: &M, own: Running, row: u32) -> bool
    requires stage { IsStage (M.device memory.now).cached (Some own) }
    requires row { row < 4096 }
    ensures { result ≡ sees (M.device memory.now).cached (own_object 1) own.snapshot row }
{
    let is_ended = is_read(memory.load(ended(row)), own.snapshot);
    let is_born = is_read(memory.load(born(row)), own.snapshot);
    let is_own = is_among(memory, own, row);
    !is_ended && (is_born || is_own)
}

// Whether the entries of the open transaction's object name a row as created: they name those behind the used up ones.
fn is_among<M: Memory>(memory: &M, own: Running, row: u32) -> bool
    requires { IsStage (M.device memory.now).cached (Some own) }
    ensures { result ≡ (view_of (M.device memory.now).cached).creates (own_object 1) 0 row }
{
    let first = memory.load(high());
    let row = u64::from(row);
    first <= row && row - first < u64::from(own.rows)
}

// Whether a stamp is the number of a commit that a transaction with this snapshot reads.
fn is_read(stamp: u64, snapshot: u64) -> bool
    ensures { result ≡ within 1 snapshot stamp }
{
    1 <= stamp && stamp <= snapshot
}

fn commit<M: Memory>(
    alloc: Global,
    memory: &M,
    begun: u64,
    own: Running,
) -> Result<Decision, NoMemory>
    requires { IsStage (M.device memory.now).cached (Some own) }
    ensures decided { IfOk result (λ decision.
        IsDecision (M.device memory.now).cached (record { begun = begun; running = Some own }) call.Commit decision) }
    ensures memory { OnErr result
        (MayWantMemory (M.device memory.now).cached (record { begun = begun; running = Some own }) call.Commit) }
{
    if own.rows == 0 {
        return close(alloc, begun);
    }
    let last = memory.load(last_commit());
    if last >= MAX_COMMITS {
        let now = Transactions {
            begun,
            running: Some(own),
        };
        return Ok(stand(Reply::Spent, Reply::Spent, now));
    }
    let first = memory.load(high()) as u32;
    let made = plan_commit(alloc, first, own.rows, last + 1)?;
    Ok(Decision {
        reply: Reply::Committed { number: last + 1 },
        copy: Reply::Committed { number: last + 1 },
        plan: Some(made.plan),
        after: Transactions {
            begun,
            running: Some(own),
        },
        late: Some(Late {
            number: last + 1,
            left: made.late,
        }),
    })
}

// Ends a transaction that wrote nothing.
fn close(alloc: Global, begun: u64) -> Result<Decision, NoMemory>
    ensures { IfOk result (λ decision. IsClosed begun decision) }
{
    let plan = plan_close(alloc)?;
    Ok(Decision {
        reply: Reply::ReadOnly,
        copy: Reply::ReadOnly,
        plan: Some(plan),
        after: Transactions {
            begun,
            running: None,
        },
        late: None,
    })
}
