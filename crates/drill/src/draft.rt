ghost use Rattle.std.specs.Prelude.{◌≡◌, ◌+◌, ◌<◌, ◌^◌, length, IfOk, OnOk};
ghost use Rattle.drill.specs.Script.{drafted, open_after, with_line, with_statement};

use crate::calls::draw_statement;
use crate::draws::Draws;
use crate::table::creation;
use mv_model::{Call, NoMemory};
use script_text::Line;
use std::alloc::Global;
use std::marker::Model;

/// A script of a number so far, with what its next statement asks for. There is a place for every `u8`, so that no
/// look-up needs a test.
#[derive(Drop)]
pub(crate) struct Draft {
    draws: Draws,
    lines: Vec<Line>,
    /// How many statements each session has.
    ordinals: [u32; 256],
    /// Whether each session is left with a transaction open.
    opened: [bool; 256],
}

impl Model for Draft {
    ghost use Rattle.drill.specs.Script.{Drafted};
    ghost use Rattle.drill.specs.Tally.{IsTold};

    ghost Value = { Drafted };

    ghost view = { λ d. record { number = d.draws.number; lines = d.lines.items; next = d.draws.next } };

    ghost invariant = { λ d. IsTold d.lines.items d.ordinals d.opened };
}

/// Whether a transaction is open behind the call.
fn is_open_after(before: bool, call: &Call) -> bool
    ensures { result ≡ open_after before call.now }
{
    match call {
        Call::Begin => true,
        Call::Commit | Call::Abort => false,
        _ => before,
    }
}

impl Draft {
    /// The creation of the table alone.
    pub(crate) fn new(alloc: Global, number: u64) -> Result<Draft, NoMemory>
        ensures { IfOk result (λ draft. draft ≡ drafted number 0) }
    {
        let mut draft = Draft {
            draws: Draws { number, next: 0 },
            lines: Vec::new(alloc),
            ordinals: [0; 256],
            opened: [false; 256],
        };
        draft.say(1, creation(alloc)?)?;
        Ok(draft)
    }

    /// Appends a session's statement.
    fn say(&mut self, session: u8, call: Call) -> Result<(), NoMemory>
        requires { length self.old.lines + 1 < 2 ^ 32 }
        ensures { OnOk result (self.new ≡ record self.old { lines = with_line self.old.lines session call }) }
    {
        let speaker = session as usize;
        let opened = is_open_after(self.opened[speaker], &call);
        let ordinal = self.ordinals[speaker] + 1;
        self.lines.push(Line::Say {
            session,
            ordinal,
            call,
        })?;
        self.ordinals[speaker] = ordinal;
        self.opened[speaker] = opened;
        Ok(())
    }

    /// Draws the next statement and appends it.
    pub(crate) fn push_statement(&mut self, alloc: Global) -> Result<(), NoMemory>
        requires lines { length self.old.lines + 1 < 2 ^ 32 }
        requires draws { self.old.next + 5 < 2 ^ 32 }
        ensures { OnOk result (self.new ≡ with_statement self.old) }
    {
        let session = self.draws.take_below(4) as u8 + 1;
        let opened = self.opened[session as usize];
        let call = draw_statement(alloc, opened, &mut self.draws)?;
        self.say(session, call)
    }

    /// The lines, in order.
    pub(crate) fn into_lines(self) -> Vec<Line>
        ensures { result.items ≡ self.lines }
    {
        let Draft { lines, .. } = self;
        lines
    }
}
