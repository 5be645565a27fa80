ghost use Rattle.std.specs.Prelude.{◌≡◌, Some};
ghost use Rattle.judging.specs.Judgings.{place_of};
ghost use Rattle.judging.specs.Refusals.{overfull, overfull_text};

use crate::finding::Overfull;
use std::fmt::{Display, Formatter, Result, Write};
use verdict::OVERFULL;

impl Overfull {
    /// The number by which owners know the refusal, next after those of tables.
    pub fn number(self) -> u8
        ensures { result ≡ overfull }
    {
        OVERFULL
    }

    /// The place of the refusal: the rule that needs more rows, 0 before the first.
    pub fn place(self) -> u16
        ensures { result ≡ place_of self }
    {
        match self {
            Overfull::AtStart(_) => 0,
            Overfull::AtTrial(halted) => halted.fault.rule,
        }
    }
}

// Written here again, and not one type with that of tables: the place of the one is a u8, of the other a u16.
impl Display for Overfull {
    ghost output = { λ o. Some (overfull_text o) };

    fn fmt<W: Write>(&self, f: &mut Formatter<W>) -> Result {
        let number = self.number();
        let place = self.place();
        write!(f, "refused {number} at {place}")
    }
}
