ghost use Rattle.layout.specs.Limits.{SizesTaken};

use crate::refusal::Refusal;
use crate::sizes::{Size, Sizes};

impl Sizes {
    /// Sizes within their limits, or the first that is not.
    pub fn new(concepts: u16, roles: u16, individuals: u16, axioms: u16) -> Result<Sizes, Refusal>
        ensures { SizesTaken concepts roles individuals axioms result }
    {
        // Four tests and no loop: each size has limits and a name of its own.
        if !(2..=32).contains(&concepts) {
            return Err(Refusal::SizeOutOfLimits(Size::Concepts));
        }
        if roles > 7 {
            return Err(Refusal::SizeOutOfLimits(Size::Roles));
        }
        if !(1..=16).contains(&individuals) {
            return Err(Refusal::SizeOutOfLimits(Size::Individuals));
        }
        if axioms > 64 {
            return Err(Refusal::SizeOutOfLimits(Size::Axioms));
        }
        Ok(Sizes {
            concepts,
            roles,
            individuals,
            axioms,
        })
    }
}
