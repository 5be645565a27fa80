ghost use Rattle.std.specs.Prelude.{◌≡◌, ℕ, ◌+◌, ◌<◌, ◌≤◌, ◌||◌, ◌==◌};
ghost use Rattle.graph.specs.Digraph.{marks};
ghost use Rattle.shapes.specs.Views.{tabled, edgeless, with_edge};

use graph::graph::{Graph, MOST};
use names::Term;

/// A graph as a row for each node, with a mark for each node to which an edge leads.
#[derive(Drop)]
pub struct Rows {
    // A row for every term, since edges may be drawn at any: `count` says how many of them are nodes.
    rows: [[bool; MOST]; MOST],
    count: usize,
    ghost few: { count ≤ 48 },
}

/// Marks one place of a row.
fn mark(row: &mut [bool; MOST], to: usize)
    requires { to < 48 }
    ensures { (k : ℕ) → marks row.new k ≡ (marks row.old k || k == to) }
{
    row[to] = true;
}

impl Rows {
    /// The nodes up to a last one, without edges.
    pub fn up_to(last: Term) -> Rows
        ensures { tabled result.rows result.count ≡ edgeless (last.number + 1) }
    {
        Rows {
            rows: [[false; MOST]; MOST],
            count: last.number as usize + 1,
        }
    }

    /// Draws an edge.
    pub fn draw(&mut self, from: Term, to: Term)
        ensures { tabled self.new.rows self.new.count ≡ with_edge (tabled self.old.rows self.old.count) from.number to.number }
    {
        mark(&mut self.rows[from.number as usize], to.number as usize);
    }
}

impl Graph for Rows {
    ghost digraph = { λ r. tabled r.rows r.count };

    fn nodes(&self) -> usize {
        self.count
    }

    fn edge(&self, from: usize, to: usize) -> bool {
        self.rows[from][to]
    }
}
