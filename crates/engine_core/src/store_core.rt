// A session that steps over the words of a device, one action or one decision at a time.
ghost use Rattle.mv_model.specs.History.{IsLegal};
ghost use Rattle.engine_core.specs.LogicalState.{logical_state};
ghost use Rattle.std.specs.Prelude.{false, ◌≡◌, ◌≢◌, ℕ, ◌+◌, ◌-◌, ◌^◌, ◌<◌, List, [], ◌++◌, None, length, take, IfOk, IfErr, IsErrOf, IsTrue, ◌↔◌};
ghost use Rattle.engine_core.specs.CoreState.{CoreState, ActsOnce, IsAnsweredButFor, IsDueAt, IsDueNext, IsEvent, Last, Nothing, Unplaced};
ghost use Rattle.engine_core.specs.declared.flight.Step.TheVariants.{Decided, Played, Replied};
ghost use Rattle.pm_model.specs.Device.{IsCrashImage};
ghost use Rattle.pm_model.specs.Plans.{at_rest, plan_of, run};
ghost use Rattle.engine_core.specs.Actions.{plan_in};
ghost use Rattle.image_layout.specs.Checks.{first_fault};
ghost use Rattle.engine_core.specs.ImageRules.{entry_rules};
ghost use Rattle.engine_core.specs.Opening.{opening_fault, opening_parts, recovered};
ghost use Rattle.engine_core.specs.Opened.{IsRefusal};
ghost use Rattle.engine_core.specs.Recoverable.{IsRecoverable, MayShow, undecided};
ghost use Rattle.engine_core.specs.Served.{is_served};
ghost use Rattle.engine_core.specs.declared.store_core.OpenError.TheVariants.{NoMemory as OutOfMemory};
ghost use Rattle.mv_model.specs.Answer.{columns_of, table_named};
ghost use Rattle.built_calls.specs.Built.{is_built_session};

use crate::decision::decide;
use crate::flight::{
    Flight, Step, actions_left, enter, is_idle, is_placed, mark_answered, next_action,
    place_commit, put_flight, take_call, take_reply,
};
use crate::opening::mend_all;
use crate::rules::{bad_stamp, broken_entry_rule};
use crate::stage_table::{stage_shape, table_name};
use crate::transactions::Transactions;
use mv_model::{Call, Entry, Name, Reply, Shape};
use pm_model::{Keep, Memory, NoMemory, Plan};
use std::alloc::Global;
use std::marker::Model;
use thiserror::Error;

/// The events that a call may take.
const MAX_EVENTS: u32 = 65_536;

/// Why a memory was not opened.
#[derive(Clone, Copy, Debug, PartialEq, Eq, Error)]
pub enum OpenError {
    /// The image breaks the rule of this number, at the word of this place.
    #[error("rule {rule} is broken at {place}")]
    BadImage { rule: u8, place: u32 },
    #[error("out of memory")]
    NoMemory,
}

impl From<NoMemory> for OpenError {
    ghost from_gives = { λ _ error. error ≡ OutOfMemory };

    fn from(_refused: NoMemory) -> OpenError {
        OpenError::NoMemory
    }
}

/// A device and the session that steps on it. The history since it was opened is legal from the state that the opened
/// words stand for, and whatever image a power cut leaves of the device, now or after any action of the plan in play,
/// fits together and recovers what it may.
pub struct Core<M: Memory> {
    memory: M,
    opened: Vec<u64>,
    history: Vec<Entry>,
    transactions: Transactions,
    plan: Option<Plan>,
    flight: Flight,
    events_left: u32,
    played: u64,
    started: u32,
    shape: Shape,
}

impl<M: Memory> Model for Core<M> {
    ghost use Rattle.std.specs.Prelude.{◌≡◌, ◌+◌, ◌≤◌, length, vec_len, vec_capacity};
    ghost use Rattle.engine_core.specs.CoreState.{CoreState, due, in_flight_of, pending};
    ghost use Rattle.engine_core.specs.Decided.{left_of};
    ghost use Rattle.engine_core.specs.Kept.{IsKept};
    ghost use Rattle.engine_core.specs.LogicalState.{columns};

    ghost Value = { CoreState M };

    ghost view = { λ c. record {
      memory = c.memory;
      opened = c.opened.items;
      history = c.history.items;
      due = due (length c.history.items) c.flight;
      in_flight = in_flight_of c.flight;
      to_play = length (left_of c.plan);
      events_left = c.events_left;
      played = c.played;
      started = c.started;
    } };

    ghost invariant = { λ c.
        IsKept (M.device c.memory) c.opened.items c.history.items c.transactions
        (left_of c.plan) c.flight c.events_left c.played c.started
        × (pending c.flight + vec_len c.history ≤ vec_capacity c.history)
        × (c.shape ≡ columns) };
}

impl<M: Memory + Drop> Drop for Core<M> {
    fn drop(self) {
        let Core {
            memory: _,
            opened: _,
            history: _,
            transactions: _,
            plan: _,
            flight: _,
            events_left: _,
            played: _,
            started: _,
            shape: _,
        } = self;
    }
}

impl<M: Memory + Drop> Core<M> {
    /// A core over a device at rest with the words of an image, such as a power cut leaves. Opening mends it. An image
    /// is refused by the first rule of each image that it breaks, or that it breaks once it was opened. The rules of
    /// each image are tried without memory: where memory runs out, none of them is broken.
    pub fn from_memory(alloc: Global, memory: M) -> Result<Core<M>, OpenError>
        requires rests { M.device memory ≡ at_rest (M.device memory).cached }
        ensures opened { IfOk result (λ core. core.opened ≡ recovered (M.device memory).cached) }
        ensures device { IfOk result
            (λ core. M.device core.memory
            ≡ run 0 (plan_of (opening_parts (M.device memory).cached)) (M.device memory)) }
        ensures rests { IfOk result (λ core. M.device core.memory ≡ at_rest core.opened) }
        ensures accepted { IfOk result (λ core. opening_fault (M.device memory).cached ≡ None) }
        ensures refused { IfErr result (λ error. IsRefusal error (opening_fault (M.device memory).cached)) }
        ensures memory { IsErrOf result OutOfMemory → first_fault entry_rules (M.device memory).cached ≡ None }
        ensures recoverable { IsRecoverable (M.device memory).cached → IfErr result (λ error. error ≡ OutOfMemory) }
        ensures history { IfOk result (λ core. core.history ≡ []) }
        ensures due { IfOk result (λ core. core.due ≡ []) }
        ensures in_flight { IfOk result (λ core. core.in_flight ≡ Nothing) }
        ensures played { IfOk result (λ core. core.played ≡ 0) }
        ensures started { IfOk result (λ core. core.started ≡ 0) }
    {
        let mut memory = memory;
        if let Some(broken) = broken_entry_rule(&memory) {
            return Err(OpenError::BadImage {
                rule: broken.rule,
                place: broken.place,
            });
        }
        mend_all(alloc, &mut memory)?;
        if let Some(place) = bad_stamp(&memory) {
            return Err(OpenError::BadImage { rule: 27, place });
        }
        let opened = memory.choose(Keep::All)?;
        Ok(Core {
            memory,
            opened,
            history: Vec::new(alloc),
            transactions: Transactions::none(),
            plan: None,
            flight: Flight::Idle,
            events_left: 0,
            played: 0,
            started: 0,
            shape: stage_shape(),
        })
    }
}

impl<M: Memory> Core<M> {
    /// Takes a call of a session that has none in flight. Where memory is refused, the core is as before, and the call
    /// is dropped.
    pub fn start(&mut self, session: u8, said: Call) -> Result<(), NoMemory>
        requires session { IsTrue (is_built_session session) }
        requires free { self.old.in_flight ≡ Nothing }
        requires served { IsTrue (is_served said) }
        requires room { self.old.started < 2 ^ 32 - 1 }
        ensures started { IfOk result
            (λ _. self.new ≡ record self.old {
              in_flight = Unplaced said;
              events_left = 65536;
              started = self.old.started + 1;
            }) }
        ensures refused { IfErr result (λ _. self.new ≡ self.old) }
    {
        match self.history.reserve(1) {
            Ok(()) => {}
            Err(refused) => {
                drop(said);
                return Err(refused);
            }
        }
        put_flight(&mut self.flight, Flight::Waiting(said));
        self.events_left = MAX_EVENTS;
        self.started += 1;
        Ok(())
    }

    /// One event of a session with a call in flight: one action of its plan, its decision, or its reply.
    pub fn step(&mut self, session: u8) -> Step
        requires session { IsTrue (is_built_session session) }
        requires in_flight { self.old.in_flight ≢ Nothing }
        ensures device { ActsOnce result 1 (M.device self.old.memory) (M.device self.new.memory) }
        ensures event { IsEvent result (M.device self.old.memory) (M.device self.new.memory) self.old self.new }
    {
        if self.actions_left() > 0 {
            self.play(session);
            Step::Played
        } else if self.is_placed() {
            Step::Replied(self.reply())
        } else {
            self.decide();
            Step::Decided
        }
    }

    /// Whether a session has a call in flight. Without one nothing is left to play.
    pub fn in_flight(&self, session: u8) -> bool
        requires session { IsTrue (is_built_session session) }
        ensures some { (result ≡ false) ↔ (self.now.in_flight ≡ Nothing) }
        ensures idle { self.now.in_flight ≡ Nothing → (self.now.to_play ≡ 0) × (self.now.due ≡ []) }
    {
        !is_idle(&self.flight)
    }

    /// The calls that have their place, in order, each with the reply that it was given or is to be given. Only the
    /// last of them may still wait for its reply.
    pub fn history(&self) -> &[Entry]
        ensures entries { result.now ≡ self.now.history }
        ensures legal { IsLegal (logical_state self.now.opened) self.now.history }
        ensures answered { IsAnsweredButFor self.now.in_flight self.now.history }
        ensures due { IsDueNext self.now.in_flight self.now.history self.now.due }
        ensures certain { IsDueAt (logical_state self.now.opened) self.now.history self.now.due self.now.to_play }
        ensures legal_due { IsLegal (logical_state self.now.opened) (self.now.history ++ self.now.due) }
    {
        self.history.as_slice()
    }

    /// The device. Whatever image a power cut leaves of it now is recoverable, and stands for a state that may be
    /// recovered: the one that the history leaves, or also the commit that is due, while its commit word is stored and
    /// not durable. With no call in flight each word is durable. The actions that were played are the first of the
    /// plans of the history and of the commit that is due, one after the other.
    pub fn memory(&self) -> &M
        ensures memory { result.now ≡ self.now.memory }
        ensures device { M.device self.now.memory ≡ run 1
            (take self.now.played (plan_in (logical_state self.now.opened) (self.now.history ++ self.now.due)))
            (at_rest self.now.opened) }
        ensures recoverable { (image : List ℕ) → IsCrashImage (M.device self.now.memory) image → IsRecoverable image }
        ensures may_recover_to { (image : List ℕ) → IsCrashImage (M.device self.now.memory) image →
            MayShow self.now.opened self.now.history (undecided (M.device self.now.memory) self.now.due) image }
        ensures rests { self.now.in_flight ≡ Nothing
            → (M.device self.now.memory).durable ≡ (M.device self.now.memory).cached }
    {
        &self.memory
    }

    /// The words as they were when the core was opened.
    pub fn opened(&self) -> &[u64]
        ensures { result.now ≡ self.now.opened }
    {
        self.opened.as_slice()
    }

    /// How many actions were played since the core was opened: with those that are left, the plans of the history and
    /// of the commit that is due.
    pub fn played(&self) -> u64
        ensures played { result ≡ self.now.played }
        ensures counted { self.now.played + self.now.to_play
            ≡ length (plan_in (logical_state self.now.opened) (self.now.history ++ self.now.due)) }
    {
        self.played
    }

    /// How many calls were started since the core was opened.
    pub fn started(&self) -> u32
        ensures { result ≡ self.now.started }
    {
        self.started
    }

    /// The number of the table with this name, from 0, if there is one.
    pub fn table(&self, name: &Name) -> Option<u32>
        ensures { result ≡ table_named (logical_state self.now.opened) name.now }
    {
        if *name == table_name() { Some(0) } else { None }
    }

    /// The columns of a table.
    pub fn shape(&self, table: u32) -> &Shape
        requires { table < length (logical_state self.now.opened).tables }
        ensures { result.now ≡ columns_of (logical_state self.now.opened) table }
    {
        let _table = table;
        &self.shape
    }

    // How many actions of the plan in play are left.
    fn actions_left(&self) -> u32
        ensures { result ≡ self.now.to_play }
    {
        actions_left(&self.plan)
    }

    // Whether the call in flight has its place in the history.
    fn is_placed(&self) -> bool
        ensures { IsTrue result ↔ (self.now.in_flight ≡ Last) }
    {
        is_placed(&self.flight)
    }

    // Plays the next action of the plan.
    fn play(&mut self, session: u8)
        requires session { IsTrue (is_built_session session) }
        requires to_play { 0 < self.old.to_play }
        ensures device { ActsOnce Played 1 (M.device self.old.memory) (M.device self.new.memory) }
        ensures event { IsEvent Played (M.device self.old.memory) (M.device self.new.memory) self.old self.new }
    {
        let Some(action) = next_action(&mut self.plan) else {
            unreachable!()
        };
        self.memory.act(session, action);
        place_commit(
            &mut self.flight,
            &mut self.transactions,
            &mut self.history,
            actions_left(&self.plan),
        );
        self.events_left -= 1;
        self.played += 1;
    }

    // Decides the call in flight.
    fn decide(&mut self)
        requires in_flight { self.old.in_flight ≢ Nothing }
        requires unplaced { self.old.in_flight ≢ Last }
        requires to_play { self.old.to_play ≡ 0 }
        ensures device { self.new.memory ≡ self.old.memory }
        ensures event { IsEvent Decided (M.device self.old.memory) (M.device self.new.memory) self.old self.new }
    {
        let said = take_call(&mut self.flight);
        let decision = decide(
            *self.history.allocator(),
            &self.memory,
            self.transactions,
            &said,
        );
        self.transactions = decision.after;
        self.plan = decision.plan;
        let entered = enter(
            &mut self.history,
            said,
            decision.reply,
            decision.copy,
            decision.late,
        );
        put_flight(&mut self.flight, entered);
        self.events_left -= 1;
    }

    // Gives the reply of the call in flight.
    fn reply(&mut self) -> Reply
        requires placed { self.old.in_flight ≡ Last }
        requires to_play { self.old.to_play ≡ 0 }
        ensures device { self.new.memory ≡ self.old.memory }
        ensures event { IsEvent (Replied result) (M.device self.old.memory)
            (M.device self.new.memory) self.old self.new }
    {
        let reply = take_reply(&mut self.flight);
        mark_answered(&mut self.history);
        self.events_left -= 1;
        reply
    }
}
