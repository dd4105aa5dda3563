// How a core is brought through a script: each call from its start to its reply, one line after the other, until a cut
// comes.
ghost use Rattle.std.specs.Prelude.{◌≡◌, ◌≢◌, ◌↔◌, ◌+◌, ◌-◌, ◌^◌, ◌<◌, ◌≤◌, true, Some, ℕ, List, [], All, length, IfOk, IsTrue};
ghost use Rattle.mv_model.specs.declared.call.Call.{Call as Said};
ghost use Rattle.mv_model.specs.declared.reply.Entry.{Entry};
ghost use Rattle.engine_core.specs.CoreState.{Nothing, Unplaced};
ghost use Rattle.engine_core.specs.LogicalState.{logical_state};
ghost use Rattle.engine_core.specs.Served.{is_served};
ghost use Rattle.script_text.specs.Script.{IsBuiltLine};
ghost use Rattle.session_serve.specs.Playing.{said_in, EndsCall, EndsLines, HasRun, IsBefore, IsCounted, IsFresh, HasInCall, IsInCall};

use engine_core::Core;
use mv_model::{Call, NoMemory};
use pm_model::Memory;
use script_text::{Line, Script};

/// How a run ended.
#[derive(Clone, Copy, Debug, PartialEq, Eq)]
pub(crate) enum Ending {
    /// Every statement was answered.
    Finished,
    /// The power was cut while a statement had no reply.
    Cut,
}

fn is_cut_at(cut: Option<u64>, played: u64) -> bool
    ensures { result ≡ true ↔ (cut ≡ Some played) }
{
    match cut {
        None => false,
        Some(number) => number == played,
    }
}

/// One event of the call in flight.
fn go_on<M: Memory>(core: &mut Core<M>)
    requires { core.old.in_flight ≢ Nothing }
    ensures opened { core.new.opened ≡ core.old.opened }
    ensures started { core.new.started ≡ core.old.started }
    ensures events { core.new.events_left + 1 ≡ core.old.events_left }
    ensures most { core.new.played ≤ core.old.played + 1 }
    ensures in_flight { core.old.played < core.new.played → core.new.in_flight ≢ Nothing }
    ensures in_call { (said : Said) (opened : List ℕ) (front : List Entry) → core.old.opened ≡ opened →
        HasInCall said opened front core.old → HasInCall said opened front core.new }
{
    let _event = core.step(1);
}

/// Steps the call in flight to its reply, or to the power cut.
fn step_to_reply<M: Memory>(core: &mut Core<M>, cut: Option<u64>) -> Ending
    requires before { IsBefore cut core.old.played }
    requires counted { IsCounted core.old }
    requires idle { core.old.in_flight ≢ Nothing }
    ensures opened { core.new.opened ≡ core.old.opened }
    ensures started { core.new.started ≡ core.old.started }
    ensures in_call { (said : Said) → core.old.in_flight ≡ Unplaced said
        → HasInCall said core.old.opened core.old.history core.new }
    ensures counted { IsCounted core.new }
    ensures ends { EndsCall result cut core.new }
{
    while core.in_flight(1) {
        go_on(core);
        if is_cut_at(cut, core.played()) {
            return Ending::Cut;
        }
    }
    Ending::Finished
}

/// Starts a call, and steps it to its reply, or to the power cut.
fn start_and_step<M: Memory>(
    core: &mut Core<M>,
    said: Call,
    cut: Option<u64>,
) -> Result<Ending, NoMemory>
    requires served { IsTrue (is_served said) }
    requires idle { core.old.in_flight ≡ Nothing }
    requires room { core.old.started < 2 ^ 32 - 1 }
    requires before { IsBefore cut core.old.played }
    requires counted { IsCounted core.old }
    ensures opened { core.new.opened ≡ core.old.opened }
    ensures started { IfOk result (λ _. core.new.started ≡ core.old.started + 1) }
    ensures in_call { IfOk result (λ _.
        IsInCall (logical_state core.old.opened) said core.old.history core.new.in_flight core.new.history) }
    ensures counted { IfOk result (λ _. IsCounted core.new) }
    ensures ends { IfOk result (λ ending. EndsCall ending cut core.new) }
{
    core.start(1, said)?;
    Ok(step_to_reply(core, cut))
}

/// Runs the statement of a line to its reply, or to the power cut.
fn answer_line<M: Memory>(
    core: &mut Core<M>,
    line: Line,
    cut: Option<u64>,
) -> Result<Ending, NoMemory>
    requires built { IsBuiltLine line }
    requires idle { core.old.in_flight ≡ Nothing }
    requires room { core.old.started < 2 ^ 32 - 1 }
    requires before { IsBefore cut core.old.played }
    requires counted { IsCounted core.old }
    ensures opened { core.new.opened ≡ core.old.opened }
    ensures started { IfOk result (λ _. core.new.started ≡ core.old.started + 1) }
    ensures in_call { IfOk result (λ _.
        IsInCall (logical_state core.old.opened) (said_in line) core.old.history core.new.in_flight core.new.history) }
    ensures counted { IfOk result (λ _. IsCounted core.new) }
    ensures ends { IfOk result (λ ending. EndsCall ending cut core.new) }
{
    match line {
        Line::Say { call, .. } => start_and_step(core, call, cut),
        Line::Await { .. } => unreachable!(),
    }
}

/// Runs the lines one after the other, to the end or to the power cut.
fn answer_lines<M: Memory>(
    core: &mut Core<M>,
    lines: Vec<Line>,
    cut: Option<u64>,
) -> Result<Ending, NoMemory>
    requires built { All IsBuiltLine lines.items }
    requires fits { length lines.items < 2 ^ 32 }
    requires run { HasRun [] core.old }
    requires before { lines.items ≢ [] → IsBefore cut core.old.played }
    ensures opened { core.new.opened ≡ core.old.opened }
    ensures ends { IfOk result (λ ending. EndsLines ending cut lines.items core.new) }
{
    for line in lines {
        match answer_line(core, line, cut)? {
            Ending::Finished => {}
            Ending::Cut => return Ok(Ending::Cut),
        }
    }
    Ok(Ending::Finished)
}

/// Runs a script over a core that was just opened, to the end or to the power cut.
pub(crate) fn play_script<M: Memory>(
    core: &mut Core<M>,
    script: Script,
    cut: Option<u64>,
) -> Result<Ending, NoMemory>
    requires built { All IsBuiltLine script }
    requires fresh { IsFresh core.old }
    ensures opened { core.new.opened ≡ core.old.opened }
    ensures ends { IfOk result (λ ending. EndsLines ending cut script core.new) }
{
    if is_cut_at(cut, core.played()) && !script.is_empty() {
        return Ok(Ending::Cut);
    }
    answer_lines(core, script.into_vec(), cut)
}
