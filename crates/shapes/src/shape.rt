ghost use Rattle.std.specs.Prelude.{◌<◌, IsTrue, ◌↔◌};
ghost use Rattle.graph.specs.Digraph.{Leads};
ghost use Rattle.shapes.specs.Cycles.{Turns, DirectedCycle, UndirectedCycle, Rejoined};
ghost use Rattle.shapes.specs.Shapes.{Shaped};
ghost use Rattle.shapes.specs.Views.{without};

use crate::views::{Undirected, Without};
use graph::graph::Graph;
use graph::reach::reaches;

/// The shape of a graph.
#[derive(Clone, Copy, PartialEq, Eq, Debug)]
pub enum Shape {
    Forest,
    Acyclic,
    Cyclic,
}

/// Whether a path of one or more edges leads from the node back to it.
fn turns<G: Graph>(g: &G, a: usize) -> bool
    requires { a < (G.digraph g.now).nodes }
    ensures { IsTrue result ↔ Turns (G.digraph g.now) a }
{
    (0..g.nodes()).any(|b| g.edge(a, b) && reaches(g, b, a))
}

/// Whether there is a directed cycle.
fn cyclic<G: Graph>(g: &G) -> bool
    ensures { IsTrue result ↔ DirectedCycle (G.digraph g.now) }
{
    (0..g.nodes()).any(|a| turns(g, a))
}

/// Whether a path leads from `a` to `b` without the edges between the two.
fn rejoins<G: Graph>(g: &G, a: usize, b: usize) -> bool
    ensures { IsTrue result ↔ Leads (without (G.digraph g.now) a b) a b }
{
    let rest = Without {
        graph: g,
        one: a,
        other: b,
    };
    reaches(&rest, a, b)
}

/// Whether from the node an edge, either way, leads to one from which it is reached without that edge.
fn rejoined<G: Graph>(g: &G, a: usize) -> bool
    requires { a < (G.digraph g.now).nodes }
    ensures { IsTrue result ↔ Rejoined (G.digraph g.now) a }
{
    let both = Undirected { graph: g };
    (0..g.nodes()).any(|b| both.edge(a, b) && rejoins(&both, a, b))
}

/// Whether a graph with no directed cycle has an undirected one.
fn ringed<G: Graph>(g: &G) -> bool
    requires { DirectedCycle (G.digraph g.now) → ⊥ }
    ensures { IsTrue result ↔ UndirectedCycle (G.digraph g.now) }
{
    (0..g.nodes()).any(|a| rejoined(g, a))
}

/// The shape of a graph: cyclic with a directed cycle, else acyclic with an undirected one, else a forest.
pub(crate) fn classify<G: Graph>(g: &G) -> Shape
    ensures { Shaped (G.digraph g.now) result }
{
    if cyclic(g) {
        Shape::Cyclic
    } else if ringed(g) {
        Shape::Acyclic
    } else {
        Shape::Forest
    }
}
