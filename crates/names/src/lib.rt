// Numbers of things, with their ranges in their types.
#![tactic(auto)]

ghost use Rattle.std.specs.Prelude.{◌≡◌, ◌<◌, ◌≤◌, Some};
ghost use Rattle.names.specs.Naming.{concept_text, role_text, individual_text};

pub mod words;

use std::fmt::{Display, Formatter, Result, Write};

// Four structs and not one with a limit as its parameter: what may not mix stays apart even where limits agree.

/// The number of a concept, 0 to 32: 0 is ⊤, 1 is ⊥, and 32 is U, which no table declares.
#[derive(Clone, Copy, PartialEq, Eq, Debug)]
pub struct Concept {
    pub number: u8,
    ghost range: { number ≤ 32 },
}

impl Concept {
    /// ⊤
    pub const TOP: Concept = Concept { number: 0 };

    /// ⊥
    pub const BOTTOM: Concept = Concept { number: 1 };

    /// U, which marks the terms that witness unsafe axioms.
    pub const UNSAFE: Concept = Concept { number: 32 };
}

/// The number of a role, 0 to 9: 7 is ≈, 8 is PE and 9 is E, which no table declares.
#[derive(Clone, Copy, PartialEq, Eq, Debug)]
pub struct Role {
    pub number: u8,
    ghost range: { number ≤ 9 },
}

impl Role {
    /// ≈
    pub const SAME: Role = Role { number: 7 };

    /// PE, which leads from a term to a witness made for it.
    pub const PARENT: Role = Role { number: 8 };

    /// E, which leads from an unsafe witness to an unsafe one made for it.
    pub const EDGE: Role = Role { number: 9 };
}

/// The number of an individual, 0 to 15.
#[derive(Clone, Copy, PartialEq, Eq, Debug)]
pub struct Individual {
    pub number: u8,
    ghost range: { number < 16 },
}

/// The number of a term in a term list, 0 to 47.
#[derive(Clone, Copy, PartialEq, Eq, Debug)]
pub struct Term {
    pub number: u8,
    ghost range: { number < 48 },
}

impl Term {
    /// The first term of every list.
    pub const FIRST: Term = Term { number: 0 };
}

/// A concept by its name: the first two have names of their own.
impl Display for Concept {
    ghost output = { λ c. Some (concept_text c.number) };

    fn fmt<W: Write>(&self, f: &mut Formatter<W>) -> Result {
        let number = self.number;
        match *self {
            Concept::TOP => f.write_str("Top"),
            Concept::BOTTOM => f.write_str("Bottom"),
            _ => write!(f, "C{number}"),
        }
    }
}

impl Display for Role {
    ghost output = { λ r. Some (role_text r.number) };

    fn fmt<W: Write>(&self, f: &mut Formatter<W>) -> Result {
        let number = self.number;
        write!(f, "R{number}")
    }
}

impl Display for Individual {
    ghost output = { λ i. Some (individual_text i.number) };

    fn fmt<W: Write>(&self, f: &mut Formatter<W>) -> Result {
        let number = self.number;
        write!(f, "I{number}")
    }
}

/// An individual's term has its number.
impl From<Individual> for Term {
    ghost from_gives = { λ i t. t.number ≡ i.number };

    fn from(individual: Individual) -> Term {
        Term {
            number: individual.number,
        }
    }
}
