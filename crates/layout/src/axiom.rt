ghost use Rattle.std.specs.Prelude.{◌≡◌};
ghost use Rattle.theory.specs.Table.{has_form, open_role};
ghost use Rattle.layout.specs.Meaning.{axiom_in};

use names::{Concept, Individual, Role};

/// An axiom, by its form.
#[derive(Clone, Copy, PartialEq, Eq, Debug)]
pub enum Axiom {
    /// 1: role p ⊑ q
    SubRole(Role, Role),
    /// 2: role p ⊑ q⁻
    SubInverse(Role, Role),
    /// 3: role p is transitive
    Transitive(Role),
    /// 4: p ⊓ q ⊓ r ⊑ s
    Conjunction(Concept, Concept, Concept, Concept),
    /// 5: p ⊑ {individual q}
    Nominal(Concept, Individual),
    /// 6: ∃ role p . q ⊑ r
    Filler(Role, Concept, Concept),
    /// 7: p ⊑ ≤1 role q . r
    AtMostOne(Concept, Role, Concept),
    /// 8: p ⊑ ∃ role q . r
    Exists(Concept, Role, Concept),
    /// 9: the range of role p is q
    Range(Role, Concept),
    /// 10: p ⊑ ∃ role q . {individual r}
    HasValue(Concept, Role, Individual),
    /// 11: concept p is open
    OpenConcept(Concept),
    /// 12: role p is open
    OpenRole(Role),
}

/// What fills the unused places of a list of axioms.
impl Default for Axiom {
    ghost is_default = { λ a. axiom_in a ≡ open_role 0 };

    fn default() -> Axiom {
        Axiom::OpenRole(Role { number: 0 })
    }
}

impl Axiom {
    /// Whether it asks for a witness, as form 8 does.
    pub fn asks_witness(self) -> bool
        ensures { result ≡ has_form 8 (axiom_in self) }
    {
        matches!(self, Axiom::Exists(_, _, _))
    }
}
