ghost use Rattle.std.specs.Prelude.{◌≡◌, true, length};
ghost use Rattle.theory.specs.Lists.{all_of};
ghost use Rattle.theory.specs.WellFormed.{declares};
ghost use Rattle.layout.specs.Meaning.{table_of};

use layout::axiom::Axiom;
use layout::sizes::Sizes;

/// What a table says: its sizes, and its axioms, whose arguments are declared.
#[derive(Clone, Copy, PartialEq, Eq, Debug)]
pub(crate) struct Stated<'a> {
    pub(crate) sizes: Sizes,
    pub(crate) axioms: &'a [Axiom],
    ghost counted: { length axioms.now ≡ sizes.axioms },
    ghost declared: { all_of (declares (table_of sizes axioms.now)) (table_of sizes axioms.now).axioms ≡ true },
}
