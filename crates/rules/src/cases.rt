// Worked cases of the rules, as the contract of a function that anyone may call.
ghost use Rattle.rules.specs.Cases.{WorkedCases};

/// The worked cases come out as they are written down: each call gets the answer that stands beside
/// it, the committed values at the end are those named, and so are the copies in the book and the
/// values seen, where a case names them.
pub fn worked_cases()
    ensures { WorkedCases }
{}
