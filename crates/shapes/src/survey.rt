ghost use Rattle.graph.specs.Digraph.{marks};
ghost use Rattle.shapes.specs.Surveys.{Surveyed};

use crate::height::Marked;
use crate::shape::{Shape, classify};
use graph::graph::{Graph, MOST};

/// The shape of a graph, and the most marked nodes on one path of them, 0 if the graph is cyclic.
// By a rule of the project a cyclic graph has height 0.
#[derive(Clone, Copy, PartialEq, Eq, Debug)]
pub struct Survey {
    pub shape: Shape,
    pub height: u8,
}

/// Surveys a graph some of whose nodes are marked.
pub fn look<G: Graph>(g: &G, marked: &[bool; MOST]) -> Survey
    ensures { Surveyed (G.digraph g.now) (marks marked.now) result.shape result.height }
{
    let shape = classify(g);
    let height = match shape {
        Shape::Cyclic => 0,
        Shape::Acyclic | Shape::Forest => Marked { graph: g, marked }.height(),
    };
    Survey { shape, height }
}
