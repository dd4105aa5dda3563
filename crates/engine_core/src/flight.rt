// The call that a session has in flight, and its steps.
ghost use Rattle.std.specs.Prelude.{◌≡◌, ◌+◌, ◌-◌, ◌^◌, ◌<◌, ◌≤◌, ◌++◌, List, [], ◌∷◌, IsNone, IfSome, IsTrue, ◌↔◌, length, vec_len, vec_capacity};
ghost use Rattle.mv_model.specs.declared.reply.Entry.{Entry};
ghost use Rattle.engine_core.specs.CoreState.{IsEntered, IsPlacedAt, IsWaiting, Last, Nothing, answered, in_flight_of, pending, unanswered};
ghost use Rattle.engine_core.specs.declared.flight.Flight.TheVariants.{Idle, Placed, Waiting};
ghost use Rattle.engine_core.specs.Decided.{left_of};

use crate::decision::Late;
use crate::transactions::Transactions;
use mv_model::{Call, Entry, Reply};
use pm_model::{Action, Plan};
use std::mem;

/// The call that a session has in flight.
#[derive(Drop)]
pub(crate) enum Flight {
    /// None.
    Idle,
    /// A call before its decision.
    Waiting(Call),
    /// A commit whose plan is played. It is the commit of this number once so many actions are left.
    Committing { number: u64, late: u32 },
    /// A call that has its place in the history, and this reply.
    Placed(Reply),
}

/// What a step did.
#[derive(Drop)]
pub enum Step {
    /// One action was played on the device.
    Played,
    /// The call was decided, and the device is as before.
    Decided,
    /// Another session holds what the call needs. Nothing changed.
    Blocked { holder: u8 },
    /// The call is done.
    Replied(Reply),
}

/// Takes the next action of a plan, if one is left.
pub(crate) fn next_action(plan: &mut Option<Plan>) -> Option<Action>
    ensures none { IsNone result ↔ (left_of plan.old ≡ []) }
    ensures first { IfSome result (λ action. left_of plan.old ≡ action ∷ left_of plan.new) }
    ensures at_end { left_of plan.old ≡ [] → left_of plan.new ≡ [] }
{
    match plan {
        Some(plan) => plan.next(),
        None => None,
    }
}

/// How many actions of a plan are left.
pub(crate) fn actions_left(plan: &Option<Plan>) -> u32
    ensures { result ≡ length (left_of plan.now) }
{
    match plan {
        Some(plan) => plan.len(),
        None => 0,
    }
}

/// Puts a call into the history, with the reply that it will be given.
pub(crate) fn push_call(history: &mut Vec<Entry>, said: Call, reply: Reply)
    requires room { vec_len history.old < vec_capacity history.old }
    requires small { vec_len history.old < 2 ^ 32 - 1 }
    ensures items { history.new.items ≡ history.old.items ++ unanswered (vec_len history.old + 1) said reply ∷ [] }
    ensures capacity { vec_capacity history.new ≡ vec_capacity history.old }
{
    let ordinal = history.len() as u32 + 1;
    history.push_reserved(Entry {
        session: 1,
        ordinal,
        call: said,
        reply,
        answered: false,
    });
}

/// Puts a commit into the history, and closes its transaction, once so many actions of its plan are left.
pub(crate) fn place_commit(
    flight: &mut Flight,
    transactions: &mut Transactions,
    history: &mut Vec<Entry>,
    left: u32,
)
    requires room { pending flight.old + vec_len history.old ≤ vec_capacity history.old }
    requires small { pending flight.old + vec_len history.old < 2 ^ 32 }
    ensures placed { IsPlacedAt left flight.old flight.new transactions.old transactions.new history.old.items
        history.new.items }
    ensures capacity { vec_capacity history.new ≡ vec_capacity history.old }
{
    if let Flight::Committing { number, late } = flight {
        let number = *number;
        if *late == left {
            transactions.running = None;
            push_call(history, Call::Commit, Reply::Committed { number });
            put_flight(flight, Flight::Placed(Reply::Committed { number }));
        }
    }
}

/// Puts a call that is decided into the history, unless it is a commit that waits for its place.
pub(crate) fn enter(
    history: &mut Vec<Entry>,
    said: Call,
    reply: Reply,
    copy: Reply,
    late: Option<Late>,
) -> Flight
    requires room { vec_len history.old < vec_capacity history.old }
    requires small { vec_len history.old < 2 ^ 32 - 1 }
    ensures entered { IsEntered late said reply copy history.old.items history.new.items result }
    ensures capacity { vec_capacity history.new ≡ vec_capacity history.old }
{
    match late {
        Some(late) => {
            drop(said);
            drop(reply);
            drop(copy);
            Flight::Committing {
                number: late.number,
                late: late.left,
            }
        }
        None => {
            push_call(history, said, reply);
            Flight::Placed(copy)
        }
    }
}

/// Marks the last entry as answered.
pub(crate) fn mark_answered(history: &mut Vec<Entry>)
    ensures items { (front : List Entry) → (last : Entry) → history.old.items ≡ front ++ last ∷ []
        → history.new.items ≡ front ++ answered last ∷ [] }
    ensures capacity { vec_capacity history.new ≡ vec_capacity history.old }
{
    if let Some(entry) = history.last_mut() {
        entry.answered = true;
    }
}

/// Puts another call in flight.
pub(crate) fn put_flight(flight: &mut Flight, next: Flight)
    ensures { flight.new ≡ next }
{
    drop(mem::replace(flight, next));
}

/// Whether no call is in flight.
pub(crate) fn is_idle(flight: &Flight) -> bool
    ensures { IsTrue result ↔ (in_flight_of flight.now ≡ Nothing) }
{
    matches!(flight, Flight::Idle)
}

/// Whether the call in flight has its place in the history.
pub(crate) fn is_placed(flight: &Flight) -> bool
    ensures { IsTrue result ↔ (in_flight_of flight.now ≡ Last) }
{
    matches!(flight, Flight::Placed(_))
}

/// Takes the call that is to be decided.
pub(crate) fn take_call(flight: &mut Flight) -> Call
    requires { IsWaiting flight.old }
    ensures call { flight.old ≡ Waiting result }
    ensures taken { flight.new ≡ Idle }
{
    match mem::replace(flight, Flight::Idle) {
        Flight::Waiting(said) => said,
        _ => unreachable!(),
    }
}

/// Takes the reply that is to be given.
pub(crate) fn take_reply(flight: &mut Flight) -> Reply
    requires { in_flight_of flight.old ≡ Last }
    ensures reply { flight.old ≡ Placed result }
    ensures taken { flight.new ≡ Idle }
{
    match mem::replace(flight, Flight::Idle) {
        Flight::Placed(reply) => reply,
        _ => unreachable!(),
    }
}
