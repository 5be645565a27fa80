ghost use Rattle.std.specs.Prelude.{◌≡◌, ℕ, List, false, slice_index_or};
ghost use Rattle.chase.specs.Judging.{judging_terms, unsafe_term};
ghost use Rattle.chase.specs.Term.{Term};
ghost use Rattle.chase.specs.Trials.{term_at};
ghost use Rattle.table.specs.Answers.{meaning};
ghost use Rattle.trial.specs.Nesting.{row_in};
ghost use Rattle.trial.specs.Rows.{terms_in};

use crate::listing::first_terms;
use graph::graph::MOST;
use std::array;
use table::checked::Checked;
use trial::{Row, Terms};

/// Whether a row is of the witness of an unsafe axiom.
fn is_unsafe_row(table: &Checked, row: Row) -> bool
    ensures { (l : List Term) → result ≡ unsafe_term (meaning table.now) (row_in l row) }
{
    match row {
        Row::Shared(k) => table.is_unsafe(k as usize),
        Row::Individual(_) | Row::Nested(_, _) => false,
    }
}

/// Whether the term with that number, if there is one, is the witness of an unsafe axiom.
pub(crate) fn is_unsafe_term(table: &Checked, terms: &Terms, number: usize) -> bool
    ensures { result ≡ unsafe_term (meaning table.now) (term_at (terms_in terms.now) number) }
{
    terms
        .rows()
        .get(number)
        .is_some_and(|row| is_unsafe_row(table, *row))
}

/// By term number, whether the term is the witness of an unsafe axiom.
pub fn unsafe_marks(table: &Checked) -> [bool; MOST]
    ensures { (i : ℕ) → slice_index_or result i false ≡ unsafe_term (meaning table.now) (term_at (judging_terms (meaning table.now)) i) }
{
    let terms = first_terms(table);
    array::from_fn(|number| is_unsafe_term(table, &terms, number))
}
