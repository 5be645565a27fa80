ghost use Rattle.std.specs.Prelude.{◌≡◌, ◌<◌, ◌≤◌, MatchResult};

use crate::{Concept, Individual, Role};

/// A word that is the number of nothing.
#[derive(Clone, Copy, PartialEq, Eq, Debug)]
pub struct OutOfRange;

// Three impls and not one generic: one for every such type would meet the library's own, and a concept is no role.
impl TryFrom<u16> for Concept {
    type Error = OutOfRange;

    ghost try_from_gives = { λ n r. MatchResult r (λ c. c.number ≡ n) (λ _. 32 < n) };

    fn try_from(word: u16) -> Result<Concept, OutOfRange> {
        if word <= 32 {
            Ok(Concept { number: word as u8 })
        } else {
            Err(OutOfRange)
        }
    }
}

impl TryFrom<u16> for Role {
    type Error = OutOfRange;

    ghost try_from_gives = { λ n r. MatchResult r (λ p. p.number ≡ n) (λ _. 9 < n) };

    fn try_from(word: u16) -> Result<Role, OutOfRange> {
        if word <= 9 {
            Ok(Role { number: word as u8 })
        } else {
            Err(OutOfRange)
        }
    }
}

impl TryFrom<u16> for Individual {
    type Error = OutOfRange;

    ghost try_from_gives = { λ n r. MatchResult r (λ i. i.number ≡ n) (λ _. 16 ≤ n) };

    fn try_from(word: u16) -> Result<Individual, OutOfRange> {
        if word < 16 {
            Ok(Individual { number: word as u8 })
        } else {
            Err(OutOfRange)
        }
    }
}
