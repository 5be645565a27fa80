ghost use Rattle.std.specs.Prelude.{◌≡◌, ◌+◌, ◌<◌};
ghost use Rattle.theory.specs.Roles.{node_of, expression_at, includes_by, inclusion_graph, included};
ghost use Rattle.layout.specs.Meaning.{axiom_in};
ghost use Rattle.table.specs.Meaning.{expression_in, table_in};

use crate::expression::Expression;
use crate::stated::Stated;
use graph::graph::Graph;
use graph::reach::reaches;
use layout::axiom::Axiom;
use names::Role;

/// Whether the axiom includes the one expression in the other.
fn includes(axiom: Axiom, lower: Expression, upper: Expression) -> bool
    ensures { result ≡ includes_by (expression_in lower) (expression_in upper) (axiom_in «axiom») }
{
    match axiom {
        Axiom::SubRole(p, q) => {
            (lower == Expression::Plain(p) && upper == Expression::Plain(q))
                || (lower == Expression::Inverse(p) && upper == Expression::Inverse(q))
        }
        Axiom::SubInverse(p, q) => {
            (lower == Expression::Plain(p) && upper == Expression::Inverse(q))
                || (lower == Expression::Inverse(p) && upper == Expression::Plain(q))
        }
        _ => false,
    }
}

impl Stated<'_> {
    /// The node of an expression: the roles come first, then their inverses.
    fn node(&self, expression: Expression) -> usize
        ensures { result ≡ node_of (table_in self.now) (expression_in expression) }
    {
        match expression {
            Expression::Plain(role) => role.number as usize,
            Expression::Inverse(role) => self.sizes.roles as usize + role.number as usize,
        }
    }

    /// The expression of a node.
    fn expression_at(&self, node: usize) -> Expression
        requires { node < self.now.sizes.roles + self.now.sizes.roles }
        ensures { expression_in result ≡ expression_at (table_in self.now) node }
    {
        let roles = self.sizes.roles as usize;
        if node < roles {
            Expression::Plain(Role { number: node as u8 })
        } else {
            let number = (node - roles) as u8;
            Expression::Inverse(Role { number })
        }
    }

    /// Whether a path of inclusions leads from the one expression to the other.
    pub(crate) fn includes(&self, lower: Expression, upper: Expression) -> bool
        ensures { result ≡ included (table_in self.now) (expression_in lower) (expression_in upper) }
    {
        reaches(self, self.node(lower), self.node(upper))
    }
}

/// Role expressions as nodes, with an edge for each inclusion of an axiom.
impl Graph for Stated<'_> {
    ghost digraph = { λ s. inclusion_graph (table_in s) };

    fn nodes(&self) -> usize {
        let roles = self.sizes.roles as usize;
        roles + roles
    }

    fn edge(&self, from: usize, to: usize) -> bool {
        let lower = self.expression_at(from);
        let upper = self.expression_at(to);
        // No chain: each search asks this some hundred times, and the loop takes a fifth less time.
        for axiom in self.axioms {
            if includes(*axiom, lower, upper) {
                return true;
            }
        }
        false
    }
}
