// The theorems of verdicts: each is the contract of a function that does nothing.
ghost use Rattle.verdict.specs.Marked.{MarkedVerdicts};
ghost use Rattle.verdict.specs.Verdicts.{OneVerdict};

/// The lodge table, with and without its third axiom, a loop, and two levels of two witnesses each.
pub fn marked_verdicts()
    ensures { MarkedVerdicts }
{}

/// A table has one verdict.
pub fn verdict_is_one()
    ensures { OneVerdict }
{}
