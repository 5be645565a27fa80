ghost use Rattle.std.specs.Prelude.{◌≡◌, ℕ, ◌<◌, length, MatchOption, IsTrue, ◌↔◌};
ghost use Rattle.graph.specs.Digraph.{Leads};
ghost use Rattle.graph.specs.declared.reach.Visit.TheVariants.{Seen};
ghost use Rattle.graph.specs.Visits.{visit_at, Follows};

use crate::graph::{Graph, MOST};

/// How far a search has come with a node.
#[derive(Clone, Copy, PartialEq, Eq)]
enum Visit {
    Unseen,
    Seen,
    Followed,
}

/// The first node that was seen and not yet followed.
fn waiting(visits: &[Visit]) -> Option<usize>
    ensures { MatchOption result ((k : ℕ) → k < length visits.now → visit_at visits.now k ≡ Seen → ⊥) (λ x. (x < length visits.now) × (visit_at visits.now x ≡ Seen)) }
{
    visits.iter().position(|visit| *visit == Visit::Seen)
}

/// Shows the nodes to which an edge leads from `x`, and follows `x`. Only nodes are looked at, so that a small graph costs little.
fn follow<G: Graph>(g: &G, x: usize, visits: &mut [Visit; MOST])
    requires { x < (G.digraph g.now).nodes }
    ensures { (y : ℕ) → Follows (G.digraph g.now) x y (visit_at visits.old y) (visit_at visits.new y) }
{
    for y in 0..g.nodes() {
        if visits[y] == Visit::Unseen && g.edge(x, y) {
            visits[y] = Visit::Seen;
        }
    }
    visits[x] = Visit::Followed;
}

/// Whether a path of zero or more edges leads from `a` to `b`. No edge leads to or from a number that is no node.
pub fn reaches<G: Graph>(g: &G, a: usize, b: usize) -> bool
    ensures { IsTrue result ↔ Leads (G.digraph g.now) a b }
{
    let n = g.nodes();
    if a >= n || b >= n {
        return a == b;
    }
    let mut visits = [Visit::Unseen; MOST];
    visits[a] = Visit::Seen;
    while let Some(x) = waiting(&visits[..n]) {
        follow(g, x, &mut visits);
    }
    visits[b] != Visit::Unseen
}
