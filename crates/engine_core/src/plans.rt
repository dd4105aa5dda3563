// The plans of session 1 on a stage image. Each takes all its memory at once.
ghost use Rattle.std.specs.Prelude.{◌≡◌, ◌+◌, ◌<◌, ◌≤◌, ◌++◌, [], length, IfOk, ◌*◌};
ghost use Rattle.pm_model.specs.Plans.{part_actions, plan_of, one_store};
ghost use Rattle.engine_core.specs.StagePlans.{close_parts, commit_late, commit_parts, insert_parts, stamp_part};

use crate::layout::{born, high, value};
use pm_model::{Action, NoMemory, Place, Plan, commit_word, last_commit};
use stage_object::{push_entry, push_retire};
use std::alloc::Global;
use txn_object::{Entry, EntryKind};

// The actions of a part of one store: the store, a flush and a fence.
const STORE_ACTIONS: u32 = 3;

// Room for the parts of a commit beside its rows.
const COMMIT_ACTIONS: u32 = 16;

/// The plan of a commit, and how many of its actions are left once its commit word is durable.
#[derive(Drop)]
pub(crate) struct CommitPlan {
    pub plan: Plan,
    pub late: u32,
}

/// A plan that makes a row the one that entry `nth` of the transaction creates, with this key word as its value. It has
/// 6 actions.
pub(crate) fn plan_insert(alloc: Global, nth: u32, row: u32, word: u64) -> Result<Plan, NoMemory>
    requires in_object { nth < 60 }
    requires in_table { row < 4096 }
    ensures left { IfOk result (λ plan. plan.left ≡ plan_of (insert_parts nth row word)) }
    ensures actions { IfOk result (λ plan. length plan.left ≡ 6) }
{
    let mut plan = Plan::with_room(alloc, 2 * STORE_ACTIONS)?;
    let entry = Entry {
        kind: EntryKind::Created,
        table: 0,
        row,
    };
    push_entry(&mut plan, 1, nth, entry);
    // Behind its entry: what an entry names may be stored from then on, and nothing else.
    plan.push_store(value(row), word);
    Ok(plan)
}

/// A plan that ends a transaction that wrote nothing.
pub(crate) fn plan_close(alloc: Global) -> Result<Plan, NoMemory>
    ensures left { IfOk result (λ plan. plan.left ≡ plan_of close_parts) }
    ensures actions { IfOk result (λ plan. length plan.left ≡ 3) }
{
    let mut plan = Plan::with_room(alloc, STORE_ACTIONS)?;
    push_retire(&mut plan, 1, 0, false);
    Ok(plan)
}

/// A plan that makes the transaction that created `count` rows from `first` on the commit of this number. It is decided
/// once its commit word is durable.
pub(crate) fn plan_commit(
    alloc: Global,
    first: u32,
    count: u32,
    number: u64,
) -> Result<CommitPlan, NoMemory>
    requires count { count ≤ 60 }
    requires in_table { first + count ≤ 4096 }
    ensures left { IfOk result (λ made. made.plan.left ≡ plan_of (commit_parts first count number)) }
    ensures late { IfOk result (λ made. made.late ≡ length (plan_of (commit_late count number))) }
    ensures later { IfOk result (λ made. made.late < length made.plan.left) }
    ensures actions { IfOk result (λ made. length made.plan.left ≤ 256) }
{
    let mut plan = Plan::with_room(alloc, 4 * count + COMMIT_ACTIONS)?;
    push_stamps(&mut plan, first, count, number);
    // The stamps are durable before the commit word. From here on the transaction is committed.
    plan.push_store(commit_word(0), number);
    let early = plan.len();
    // The last commit number follows the commit word, which alone decides; opening raises it where a cut came between.
    plan.push_store(last_commit(), number);
    push_retire(&mut plan, 1, count, true);
    let late = plan.len() - early;
    Ok(CommitPlan { plan, late })
}

// Adds the part that stamps so many rows from the first on, and says how many rows are used up.
fn push_stamps(plan: &mut Plan, first: u32, count: u32, number: u64)
    requires empty { plan.old.left ≡ [] }
    requires in_table { first + count ≤ 4096 }
    requires room { 2 * count + 3 ≤ plan.old.spare }
    ensures left { plan.new.left ≡ part_actions (stamp_part first count number) }
    ensures spare { plan.new.spare + length plan.new.left ≡ plan.old.spare }
    ensures most { length plan.new.left ≤ 2 * count + 3 }
{
    push_stamp_stores(plan, first, count, number);
    plan.end_part(count + 1);
}

fn push_stamp_stores(plan: &mut Plan, first: u32, count: u32, number: u64)
    requires empty { plan.old.left ≡ [] }
    requires in_table { first + count ≤ 4096 }
    requires room { count < plan.old.spare }
    ensures left { plan.new.left ≡ stamp_part first count number }
    ensures spare { plan.new.spare + count + 1 ≡ plan.old.spare }
{
    for nth in 0..count {
        plan.push(Action::Store {
            place: born(first + nth),
            value: number,
        });
    }
    plan.push(Action::Store {
        place: high(),
        value: u64::from(first + count),
    });
}
