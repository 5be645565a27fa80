ghost use Rattle.std.specs.Prelude.{◌≡◌, ◌<◌, ◌≤◌, map, length, IsTrue, ◌↔◌};
ghost use Rattle.std.specs.List.{slice_get};
ghost use Rattle.std.specs.Option.{option_map};
ghost use Rattle.theory.specs.Lists.{count_of, up_from};
ghost use Rattle.theory.specs.Roles.{Included, Simple, Unsafe, is_simple, is_unsafe};
ghost use Rattle.theory.specs.Table.{has_form};
ghost use Rattle.layout.specs.Meaning.{axiom_in};
ghost use Rattle.table.specs.Answers.{meaning};
ghost use Rattle.table.specs.Meaning.{expression_in, table_in};

use crate::checked::Checked;
use crate::expression::Expression;
use crate::stated::Stated;
use layout::axiom::Axiom;
use layout::sizes::Sizes;
use names::Role;

impl Checked {
    /// Its axioms, in their order.
    pub fn axioms(&self) -> &[Axiom]
        ensures means { map axiom_in result.now ≡ (meaning self.now).axioms }
        ensures few { length result.now ≤ 64 }
    {
        self.axioms.as_slice()
    }

    /// What it says.
    fn stated(&self) -> Stated<'_>
        ensures { table_in result ≡ meaning self.now }
    {
        Stated {
            sizes: self.sizes,
            axioms: self.axioms(),
        }
    }

    /// How many concepts, roles, individuals and axioms it has.
    pub fn sizes(&self) -> Sizes
        ensures concepts { result.concepts ≡ (meaning self.now).concepts }
        ensures roles { result.roles ≡ (meaning self.now).roles }
        ensures individuals { result.individuals ≡ (meaning self.now).individuals }
        ensures axioms { result.axioms ≡ length (meaning self.now).axioms }
    {
        self.stated().sizes
    }

    /// Axiom k, if there is one.
    pub fn axiom(&self, k: usize) -> Option<Axiom>
        ensures { option_map axiom_in result ≡ slice_get (meaning self.now).axioms k }
    {
        self.axioms().get(k).copied()
    }

    /// Whether it declares the role.
    fn declares(&self, role: Role) -> bool
        ensures { IsTrue result ↔ (role.number < (meaning self.now).roles) }
    {
        u16::from(role.number) < self.sizes.roles
    }

    /// Whether the one role expression is included in the other: an undeclared one only in itself.
    pub fn includes(&self, lower: Expression, upper: Expression) -> bool
        ensures { IsTrue result ↔ Included (meaning self.now) (expression_in lower) (expression_in upper) }
    {
        if self.declares(lower.role()) && self.declares(upper.role()) {
            self.stated().includes(lower, upper)
        } else {
            lower == upper
        }
    }

    /// Whether no transitive role is included in this one.
    pub fn is_simple(&self, role: Role) -> bool
        ensures { IsTrue result ↔ Simple (meaning self.now) role.number }
    {
        !self.declares(role) || self.stated().is_simple(role)
    }

    /// Whether axiom k asks for a witness by an unsafe role.
    pub fn is_unsafe(&self, k: usize) -> bool
        ensures decides { IsTrue result ↔ Unsafe (meaning self.now) k }
        ensures computes { result ≡ is_unsafe (meaning self.now) k }
    {
        self.axiom(k)
            .is_some_and(|axiom| self.stated().has_unsafe(axiom))
    }

    /// How many of its roles are simple.
    pub fn simple_roles(&self) -> usize
        ensures { result ≡ count_of (is_simple (meaning self.now)) (up_from 0 (meaning self.now).roles) }
    {
        let stated = self.stated();
        (0..self.sizes.roles)
            .filter(|word| stated.numbers_simple(*word))
            .count()
    }

    /// How many of its axioms ask for a witness.
    pub fn witness_axioms(&self) -> usize
        ensures { result ≡ count_of (has_form 8) (meaning self.now).axioms }
    {
        let witnesses = self.axioms().iter().filter(|axiom| axiom.asks_witness());
        witnesses.count()
    }

    /// How many of its axioms ask for a witness by an unsafe role.
    pub fn unsafe_axioms(&self) -> usize
        ensures { result ≡ count_of (is_unsafe (meaning self.now)) (up_from 0 (length (meaning self.now).axioms)) }
    {
        (0..self.axioms.len())
            .filter(|k| self.is_unsafe(*k))
            .count()
    }
}
