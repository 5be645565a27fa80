ghost use Rattle.std.specs.Prelude.{◌≡◌, Some};
ghost use Rattle.theory.specs.Roles.{is_unsafe};
ghost use Rattle.layout.specs.Meaning.{axiom_in};
ghost use Rattle.table.specs.Answers.{meaning};
ghost use Rattle.inspection.specs.Notation.{unsafe_text, axiom_line, lines_text, sizes_text, counts_text, table_text};

use crate::axioms::Shown;
use layout::sizes::Sizes;
use std::fmt::{Display, Formatter, Result, Write};
use table::checked::Checked;

/// The first line of a table: its sizes.
#[derive(Drop)]
struct SizesLine<'a>(&'a Checked);

/// The line of axiom k.
#[derive(Drop)]
struct AxiomLine<'a> {
    table: &'a Checked,
    k: usize,
    shown: Shown,
}

/// The lines of all axioms.
#[derive(Drop)]
struct AxiomLines<'a>(&'a Checked);

/// The last line of a table: what was counted.
#[derive(Drop)]
struct CountsLine<'a>(&'a Checked);

/// A table, line by line.
#[derive(Drop)]
pub(crate) struct Lines<'a>(pub(crate) &'a Checked);

impl Display for SizesLine<'_> {
    ghost output = { λ l. Some (sizes_text (meaning l.0.now)) };

    fn fmt<W: Write>(&self, f: &mut Formatter<W>) -> Result {
        let Sizes {
            concepts,
            roles,
            individuals,
            axioms,
        } = self.0.sizes();
        writeln!(
            f,
            "{concepts} concepts, {roles} roles, {individuals} individuals, {axioms} axioms"
        )
    }
}

/// What follows an unsafe axiom.
fn mark(is_unsafe: bool) -> &'static str
    ensures { result.now ≡ unsafe_text is_unsafe }
{
    if is_unsafe { " (unsafe)" } else { "" }
}

impl Display for AxiomLine<'_> {
    ghost output = { λ l. Some (axiom_line l.k (is_unsafe (meaning l.table.now) l.k) (axiom_in l.shown.0)) };

    fn fmt<W: Write>(&self, f: &mut Formatter<W>) -> Result {
        let k = self.k;
        let mark = mark(self.table.is_unsafe(k));
        writeln!(f, "axiom {k}: {}{mark}", self.shown)
    }
}

impl Display for AxiomLines<'_> {
    ghost output = { λ l. Some (lines_text (meaning l.0.now)) };

    fn fmt<W: Write>(&self, f: &mut Formatter<W>) -> Result {
        let table = self.0;
        for (k, axiom) in table.axioms().iter().enumerate() {
            let shown = Shown(*axiom);
            f.write(AxiomLine { table, k, shown })?;
        }
        Ok(())
    }
}

impl Display for CountsLine<'_> {
    ghost output = { λ l. Some (counts_text (meaning l.0.now)) };

    fn fmt<W: Write>(&self, f: &mut Formatter<W>) -> Result {
        let table = self.0;
        let simple = table.simple_roles();
        let roles = table.sizes().roles;
        let unsafe_axioms = table.unsafe_axioms();
        let witnesses = table.witness_axioms();
        writeln!(
            f,
            "checked: {simple} of {roles} roles simple, {unsafe_axioms} of {witnesses} witness axioms unsafe"
        )
    }
}

impl Display for Lines<'_> {
    ghost output = { λ l. Some (table_text (meaning l.0.now)) };

    fn fmt<W: Write>(&self, f: &mut Formatter<W>) -> Result {
        let table = self.0;
        write!(
            f,
            "{}{}{}",
            SizesLine(table),
            AxiomLines(table),
            CountsLine(table)
        )
    }
}
