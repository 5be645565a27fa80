ghost use Rattle.std.specs.Prelude.{Some};
ghost use Rattle.verdict.specs.Lines.{judgement_text};

use crate::verdict::Verdict;
use layout::refusal::Refusal;
use std::fmt::{Display, Formatter, Result, Write};

/// What became of a table: its verdict, a refusal of the table, or the rule at which the ledger's rows did not suffice, 0 before the first.
#[derive(Clone, Copy, PartialEq, Eq, Debug)]
pub enum Judgement {
    Found(Verdict),
    Refused(Refusal),
    Overfull(u16),
}

/// The number of the refusal for want of rows, next after those of tables.
pub const OVERFULL: u8 = 9;

/// A line for what became of a table.
impl Display for Judgement {
    ghost output = { λ j. Some (judgement_text j) };

    fn fmt<W: Write>(&self, f: &mut Formatter<W>) -> Result {
        match self {
            Judgement::Found(verdict) => writeln!(f, "{verdict}"),
            Judgement::Refused(refusal) => writeln!(f, "{refusal}"),
            Judgement::Overfull(rule) => writeln!(f, "refused {OVERFULL} at {rule}"),
        }
    }
}
