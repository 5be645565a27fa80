ghost use Rattle.std.specs.Prelude.{◌≡◌, ℕ, ◌+◌, ◌||◌, List};
ghost use Rattle.theory.specs.Lists.{any_of};
ghost use Rattle.shapes.specs.Views.{tabled};
ghost use Rattle.verdict.specs.Links.{links};

use ledger::{Fact, Ledger};
use names::{Role, Term};
use shapes::rows::Rows;

/// Draws an edge where the fact is one.
fn draw(rows: &mut Rows, fact: Fact)
    ensures nodes { rows.new.count ≡ rows.old.count }
    ensures edges { (i j : ℕ) → (tabled rows.new.rows rows.new.count).edge i j ≡ ((tabled rows.old.rows rows.old.count).edge i j || links i j fact) }
{
    // The role is compared apart: nested in the pattern, its value would be lost to the proof.
    if let Fact::Link(role, x, y) = fact
        && role == Role::EDGE
    {
        rows.draw(x, y);
    }
}

/// Reads the edges that a ledger holds into rows, over the terms up to the last.
// No fold: it would hand the rows on by value, and so copy them for each entry.
pub fn read_edges<L: Ledger>(ledger: &L, last: Term) -> Rows
    requires { L.valid ledger.now }
    ensures nodes { result.count ≡ last.number + 1 }
    ensures edges { (i j : ℕ) → (tabled result.rows result.count).edge i j ≡ any_of (λ e. links i j e.fact) (L.entries ledger.now) }
{
    let mut rows = Rows::up_to(last);
    for k in 0..ledger.count() {
        if let Some(entry) = ledger.entry_at(k) {
            draw(&mut rows, entry.fact);
        }
    }
    rows
}
