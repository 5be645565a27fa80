ghost use Rattle.std.specs.Prelude.{Some};
ghost use Rattle.verdict.specs.Lines.{verdict_words};

use shapes::shape::Shape;
use std::fmt::{Display, Formatter, Result, Write};

/// What judging a table finds: the shape of its edges, the most unsafe witnesses on one path of them, and how many axioms are unsafe.
// By a rule of the project a cyclic graph has height 0, and the line says so.
#[derive(Clone, Copy, PartialEq, Eq, Debug)]
pub struct Verdict {
    pub shape: Shape,
    pub height: u8,
    pub unsafe_axioms: u8,
}

impl Display for Verdict {
    ghost output = { λ v. Some (verdict_words v) };

    fn fmt<W: Write>(&self, f: &mut Formatter<W>) -> Result {
        let Verdict {
            shape,
            height,
            unsafe_axioms,
        } = *self;
        write!(f, "{shape} h={height} u={unsafe_axioms}")
    }
}
