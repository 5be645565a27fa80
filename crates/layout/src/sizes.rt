ghost use Rattle.std.specs.Prelude.{◌≡◌, ◌<◌, ◌≤◌, true, MatchOption};
ghost use Rattle.theory.specs.WellFormed.{sizes_fit};

use names::{Concept, Individual, Role};

/// The four sizes that a table begins with, within their limits.
#[derive(Clone, Copy, PartialEq, Eq, Debug)]
pub struct Sizes {
    pub concepts: u16,
    pub roles: u16,
    pub individuals: u16,
    pub axioms: u16,
    ghost limits: { sizes_fit concepts roles individuals axioms ≡ true },
}

/// One of the sizes, which stand in this order.
#[derive(Clone, Copy, PartialEq, Eq, Debug)]
pub enum Size {
    Concepts,
    Roles,
    Individuals,
    Axioms,
}

/// What a word stands for, if it is below a limit.
fn declared<T: TryFrom<u16>>(word: u16, limit: u16) -> Option<T>
where
    T::Error: Drop,
    requires { (e : T.Error) → word < limit → T.try_from_gives word (Err e) → ⊥ }
    ensures { MatchOption result (limit ≤ word) (λ x. (word < limit) × T.try_from_gives word (Ok x)) }
{
    if word < limit {
        T::try_from(word).ok()
    } else {
        None
    }
}

impl Sizes {
    /// The concept that a word stands for, if it is declared.
    pub fn concept(self, word: u16) -> Option<Concept>
        ensures { MatchOption result (self.concepts ≤ word) (λ c. (word < self.concepts) × (c.number ≡ word)) }
    {
        declared(word, self.concepts)
    }

    /// The role that a word stands for, if it is declared.
    pub fn role(self, word: u16) -> Option<Role>
        ensures { MatchOption result (self.roles ≤ word) (λ p. (word < self.roles) × (p.number ≡ word)) }
    {
        declared(word, self.roles)
    }

    /// The individual that a word stands for, if it is declared.
    pub fn individual(self, word: u16) -> Option<Individual>
        ensures { MatchOption result (self.individuals ≤ word) (λ i. (word < self.individuals) × (i.number ≡ word)) }
    {
        declared(word, self.individuals)
    }
}
