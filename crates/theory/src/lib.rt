// What tables mean, in terms of plain numbers. Each theorem is the contract of a function that does nothing.
#![tactic(auto)]

ghost use Rattle.theory.specs.Laws.{TestsAreTrue};

/// The tests that compute decide the relations: inclusion of roles, simple roles, unsafe axioms and well-formed tables.
pub fn tests_are_true()
    ensures { TestsAreTrue }
{}
