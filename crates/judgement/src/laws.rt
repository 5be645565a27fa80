// The marked lines, as the contract of a function that does nothing.
ghost use Rattle.judgement.specs.Marked.{MarkedLines};

/// What is printed of the lodge table, with and without its third axiom, of a loop, and of two levels of two witnesses each.
pub fn marked_lines()
    ensures { MarkedLines }
{}
