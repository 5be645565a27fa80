ghost use Rattle.std.specs.Prelude.{Some};
ghost use Rattle.judgement.specs.Lines.{unjudged_text, judgement_text};

use crate::judgement::{Judgement, Unjudged};
use std::fmt::{Display, Formatter, Result, Write};

impl Display for Unjudged {
    ghost output = { λ u. Some (unjudged_text u) };

    fn fmt<W: Write>(&self, f: &mut Formatter<W>) -> Result {
        match self {
            Unjudged::Refused(refusal) => write!(f, "{refusal}"),
            Unjudged::Overfull(_, overfull) => write!(f, "{overfull}"),
        }
    }
}

/// A line for what became of a table.
impl Display for Judgement {
    ghost output = { λ j. Some (judgement_text j) };

    fn fmt<W: Write>(&self, f: &mut Formatter<W>) -> Result {
        match &self.0 {
            Ok(found) => writeln!(f, "{}", found.judged.verdict()),
            Err(unjudged) => writeln!(f, "{unjudged}"),
        }
    }
}
