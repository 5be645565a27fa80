ghost use Rattle.std.specs.Prelude.{Some};
ghost use Rattle.layout.specs.Meaning.{axiom_in};
ghost use Rattle.inspection.specs.Notation.{axiom_text};

use layout::axiom::Axiom;
use std::fmt::{Display, Formatter, Result, Write};

// A type of its own, and not `Display` for `Axiom`: the notation is this crate's.

/// An axiom as a reader wants it.
#[derive(Drop)]
pub(crate) struct Shown(pub(crate) Axiom);

impl Display for Shown {
    ghost output = { λ a. Some (axiom_text (axiom_in a.0)) };

    fn fmt<W: Write>(&self, f: &mut Formatter<W>) -> Result {
        match self.0 {
            Axiom::SubRole(p, q) => write!(f, "{p} <= {q}"),
            Axiom::SubInverse(p, q) => write!(f, "{p} <= inverse {q}"),
            Axiom::Transitive(p) => write!(f, "{p} transitive"),
            Axiom::Conjunction(p, q, r, s) => write!(f, "{p} & {q} & {r} <= {s}"),
            Axiom::Nominal(p, q) => write!(f, "{p} <= {{{q}}}"),
            Axiom::Filler(p, q, r) => write!(f, "some {p} {q} <= {r}"),
            Axiom::AtMostOne(p, q, r) => write!(f, "{p} <= at most 1 {q} {r}"),
            Axiom::Exists(p, q, r) => write!(f, "{p} <= some {q} {r}"),
            Axiom::Range(p, q) => write!(f, "range {p} <= {q}"),
            Axiom::HasValue(p, q, r) => write!(f, "{p} <= some {q} {{{r}}}"),
            Axiom::OpenConcept(p) => write!(f, "{p} open"),
            Axiom::OpenRole(p) => write!(f, "{p} open"),
        }
    }
}
