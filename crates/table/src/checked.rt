ghost use Rattle.std.specs.Prelude.{◌≡◌, true, length};
ghost use Rattle.theory.specs.WellFormed.{well_formed};
ghost use Rattle.layout.specs.Meaning.{table_of};

use arrayvec::ArrayVec;
use layout::axiom::Axiom;
use layout::sizes::Sizes;

/// The most axioms that a table has.
pub const MOST: usize = 64;

// The size of the list is kept with the other three: by the type it is how many axioms are there.

/// A table that has passed its checks: it is well-formed by its type.
#[derive(Drop)]
pub struct Checked {
    pub(crate) sizes: Sizes,
    pub(crate) axioms: ArrayVec<Axiom, MOST>,
    ghost counted: { length axioms.items ≡ sizes.axioms },
    ghost sound: { well_formed (table_of sizes axioms.items) ≡ true },
}
