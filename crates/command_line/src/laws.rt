//! Laws of command lines, each the contract of a function that does nothing.
ghost use Rattle.command_line.specs.Laws.{ReadsEachPart};

/// The parts of words are exactly those that stand there: paths, options with their value in the same word, and options
/// with their value in the next one.
pub fn each_part_is_read()
    ensures { ReadsEachPart }
{}
