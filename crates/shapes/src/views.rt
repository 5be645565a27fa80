ghost use Rattle.shapes.specs.Views.{undirected, without};

use graph::graph::Graph;

/// A graph with each edge run both ways.
#[derive(Drop)]
pub(crate) struct Undirected<'a, G: Graph> {
    pub(crate) graph: &'a G,
}

impl<'a, G: Graph> Graph for Undirected<'a, G> {
    ghost digraph = { λ u. undirected (G.digraph u.graph.now) };

    fn nodes(&self) -> usize {
        self.graph.nodes()
    }

    fn edge(&self, from: usize, to: usize) -> bool {
        self.graph.edge(from, to) || self.graph.edge(to, from)
    }
}

/// A graph without what runs between two of its nodes.
#[derive(Drop)]
pub(crate) struct Without<'a, G: Graph> {
    pub(crate) graph: &'a G,
    pub(crate) one: usize,
    pub(crate) other: usize,
}

impl<'a, G: Graph> Graph for Without<'a, G> {
    ghost digraph = { λ u. without (G.digraph u.graph.now) u.one u.other };

    fn nodes(&self) -> usize {
        self.graph.nodes()
    }

    fn edge(&self, from: usize, to: usize) -> bool {
        let ends = (self.one, self.other);
        let both = (from, to) == ends || (to, from) == ends;
        !both && self.graph.edge(from, to)
    }
}
