//! What lines are read as, worked out by hand: the contract of a function that does nothing.
ghost use Rattle.text_tests.specs.Worked.{ComparisonsAreWorked, StatementsAreWorked};

/// Each statement, and each comparison, is read as the call that its line names.
pub fn lines_are_worked()
    ensures statements { StatementsAreWorked }
    ensures comparisons { ComparisonsAreWorked }
{}
