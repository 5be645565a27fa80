ghost use Rattle.std.specs.Prelude.{◌≡◌, ◌&&◌, nat_lt};
ghost use Rattle.theory.specs.Lists.{any_of};
ghost use Rattle.theory.specs.Roles.{spoils, is_simple, endangers, has_unsafe};
ghost use Rattle.layout.specs.Meaning.{axiom_in};
ghost use Rattle.table.specs.Meaning.{table_in};

use crate::expression::Expression;
use crate::stated::Stated;
use layout::axiom::Axiom;
use names::{Concept, Role};

impl Stated<'_> {
    /// Whether the axiom makes a role transitive that is included, one way or the other, in this one.
    fn spoils(&self, role: Role, axiom: Axiom) -> bool
        ensures { result ≡ spoils (table_in self.now) role.number (axiom_in «axiom») }
    {
        let own = Expression::Plain(role);
        match axiom {
            Axiom::Transitive(p) => {
                self.includes(Expression::Plain(p), own)
                    || self.includes(Expression::Inverse(p), own)
            }
            _ => false,
        }
    }

    /// Whether no transitive role is included in this one.
    pub(crate) fn is_simple(&self, role: Role) -> bool
        ensures { result ≡ is_simple (table_in self.now) role.number }
    {
        !self.axioms.iter().any(|axiom| self.spoils(role, *axiom))
    }

    /// Whether the word is the number of a simple role.
    pub(crate) fn numbers_simple(&self, word: u16) -> bool
        ensures { result ≡ (nat_lt word self.now.sizes.roles && is_simple (table_in self.now) word) }
    {
        let is_simple = |role: Role| -> bool
            ensures { result ≡ is_simple (table_in self.entry.now) role.number }
        { self.is_simple(role) };
        self.sizes.role(word).is_some_and(is_simple)
    }

    /// Whether the axiom makes witnesses by this role unsafe.
    fn endangers(&self, role: Role, axiom: Axiom) -> bool
        ensures { result ≡ endangers (table_in self.now) role.number (axiom_in «axiom») }
    {
        let own = Expression::Plain(role);
        match axiom {
            Axiom::AtMostOne(_, s, _) => {
                self.includes(own, Expression::Plain(s))
                    || self.includes(own, Expression::Inverse(s))
            }
            Axiom::Filler(s, q, _) => q != Concept::TOP
                && self.includes(own, Expression::Inverse(s)),
            _ => false,
        }
    }

    /// Whether some axiom makes witnesses by this role unsafe.
    fn is_unsafe_role(&self, role: Role) -> bool
        ensures { result ≡ any_of (endangers (table_in self.now) role.number) (table_in self.now).axioms }
    {
        self.axioms.iter().any(|axiom| self.endangers(role, *axiom))
    }

    /// Whether the axiom asks for a witness by an unsafe role.
    pub(crate) fn has_unsafe(&self, axiom: Axiom) -> bool
        ensures { result ≡ has_unsafe (table_in self.now) (axiom_in «axiom») }
    {
        match axiom {
            Axiom::Exists(_, role, _) => self.is_unsafe_role(role),
            _ => false,
        }
    }
}
