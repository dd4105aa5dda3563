ghost use Rattle.std.specs.Prelude.{◌≡◌, ◌+◌, ◌<◌, ◌≤◌, IfSome};
ghost use Rattle.drill.specs.Schedule.{first_going, is_done, move_at, move_of, picked, standing_of, step_behind, upwards};

use crate::draws::draw;

/// How a session stands.
#[derive(Clone, Copy, Debug, PartialEq, Eq)]
pub enum Standing {
    /// It has neither a call in flight nor a statement left.
    Done,
    /// It has a statement left, and no call in flight.
    Ready,
    /// Its call in flight goes on.
    Running,
    /// Its call in flight waits until another session, the holder, has gone on.
    Blocked { holder: u8 },
}

/// What is done at a turn.
#[derive(Clone, Copy, Debug, PartialEq, Eq)]
pub enum Move {
    /// The session starts its next statement.
    Start { session: u8 },
    /// The session steps.
    Step { session: u8 },
    /// The holders lead to no session that can step.
    Stuck,
    /// Every session is done.
    Over,
}

/// The session, 1 to 4, that the schedule of a number picks at a turn, counted from 0.
pub fn pick(number: u64, turn: u64) -> u8
    ensures picked { result ≡ picked number turn }
    ensures session { (1 ≤ result) × (result ≤ 4) }
{
    1 + (draw(u64::MAX - number, turn) % 4) as u8
}

fn standing_of(sessions: &[Standing; 4], session: u8) -> Standing
    ensures { result ≡ standing_of sessions.now session }
{
    match session {
        1..=4 => sessions[session as usize - 1],
        _ => Standing::Done,
    }
}

/// The next session upwards, after 4 again 1.
fn upwards(session: u8) -> u8
    ensures { result ≡ upwards session }
{
    session % 4 + 1
}

/// Of so many sessions upwards from this one the first that is not done.
fn first_going(sessions: &[Standing; 4], count: u8, session: u8) -> Option<u8>
    ensures { result ≡ first_going sessions.now count session }
{
    if count == 0 {
        return None;
    }
    match standing_of(sessions, session) {
        Standing::Done => first_going(sessions, count - 1, upwards(session)),
        _ => Some(session),
    }
}

/// The step at the end of the holders, of which the first is the session and there are at most so many.
fn step_behind(sessions: &[Standing; 4], count: u8, session: u8) -> Move
    ensures { result ≡ step_behind sessions.now count session }
{
    if count == 0 {
        return Move::Stuck;
    }
    match standing_of(sessions, session) {
        Standing::Running => Move::Step { session },
        Standing::Blocked { holder } => step_behind(sessions, count - 1, holder),
        _ => Move::Stuck,
    }
}

/// What is done at a turn of the schedule of a number. docs/DRILL.md, "The schedule", says which session it is.
pub fn move_at(number: u64, turn: u64, sessions: &[Standing; 4]) -> Move
    ensures { result ≡ move_at number turn sessions.now }
{
    let Some(session) = first_going(sessions, 4, pick(number, turn)) else {
        return Move::Over;
    };
    match standing_of(sessions, session) {
        Standing::Ready => Move::Start { session },
        _ => step_behind(sessions, 4, session),
    }
}
