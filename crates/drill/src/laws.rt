//! Laws of scripts and schedules, each the contract of a function that does nothing.
ghost use Rattle.drill.specs.Laws.{EachFollows, HasOneCreation, MovesFit, WaitsEnd};

/// A script is the creation of its table, and behind it exactly as many statements of the sessions 1 to 4 as were asked
/// for.
pub fn scripts_have_one_creation()
    ensures { HasOneCreation }
{}

/// Each statement is numbered behind those of its session, and is a `begin` exactly where the session has no
/// transaction open.
pub fn statements_follow()
    ensures { EachFollows }
{}

/// What is done at a turn fits how the sessions stand: it is done for the first session upwards from the picked one
/// that is not done, and the run is over only where every session is.
pub fn moves_fit()
    ensures { MovesFit }
{}

/// Where no sessions wait in a circle, and the session that goes first has a call in flight, the move is a step: that
/// of the running session at the end of its holders.
pub fn waits_end()
    ensures { WaitsEnd }
{}
