ghost use Rattle.std.specs.Prelude.{ℕ, ◌<◌, ◌≤◌, length, slice_index};
ghost use Rattle.shapes.specs.Cycles.{DirectedCycle};
ghost use Rattle.graph.specs.Digraph.{marks};
ghost use Rattle.shapes.specs.Heights.{IsHeight, BestAfter, OneMore, Largest};

use graph::graph::{Graph, MOST};

/// A graph some of whose nodes are marked.
#[derive(Drop)]
pub(crate) struct Marked<'a, G: Graph> {
    pub(crate) graph: &'a G,
    pub(crate) marked: &'a [bool; MOST],
}

impl<'a, G: Graph> Marked<'a, G> {
    /// The best of the nodes to which an edge leads from `x`, 0 if there is none. No edge is asked for where the best is 0.
    fn best_after(&self, best: &[u8; MOST], x: usize) -> u8
        requires { x < (G.digraph self.now.graph.now).nodes }
        ensures { BestAfter (G.digraph self.now.graph.now) (λ y. slice_index best.now y) x result }
    {
        let after = (0..self.graph.nodes())
            .filter(|y| best[*y] > 0 && self.graph.edge(x, *y))
            .map(|y| best[y]);
        after.max().unwrap_or(0)
    }

    /// One more than the best of the nodes to which an edge leads from `x`, and 0 if `x` is not marked.
    fn one_more(&self, best: &[u8; MOST], x: usize) -> u8
        requires place { x < 48 }
        requires node { x < (G.digraph self.now.graph.now).nodes }
        requires small { (y : ℕ) → y < (G.digraph self.now.graph.now).nodes → slice_index best.now y ≤ 48 }
        ensures { OneMore (G.digraph self.now.graph.now) (marks self.now.marked.now) (λ y. slice_index best.now y) x result }
    {
        if self.marked[x] {
            self.best_after(best, x) + 1
        } else {
            0
        }
    }

    /// The same for each node. Only nodes are gone over, so that a small graph costs little.
    fn relaxed(&self, best: &[u8; MOST]) -> [u8; MOST]
        requires { (y : ℕ) → y < (G.digraph self.now.graph.now).nodes → slice_index best.now y ≤ 48 }
        ensures { (x : ℕ) → x < (G.digraph self.now.graph.now).nodes → OneMore (G.digraph self.now.graph.now) (marks self.now.marked.now) (λ y. slice_index best.now y) x (slice_index result x) }
    {
        let mut next = [0; MOST];
        for x in 0..self.graph.nodes() {
            next[x] = self.one_more(best, x);
        }
        next
    }

    /// The most nodes on one path of marked nodes, 0 if none is marked.
    pub(crate) fn height(&self) -> u8
        requires { DirectedCycle (G.digraph self.now.graph.now) → ⊥ }
        ensures { IsHeight (G.digraph self.now.graph.now) (marks self.now.marked.now) result }
    {
        let n = self.graph.nodes();
        let mut best = [0; MOST];
        for _round in 0..n {
            best = self.relaxed(&best);
        }
        largest(&best[..n])
    }
}

/// The largest of the numbers, 0 if there is none.
fn largest(of: &[u8]) -> u8
    ensures { Largest (λ k. slice_index of.now k) (length of.now) result }
{
    of.iter().copied().max().unwrap_or(0)
}
