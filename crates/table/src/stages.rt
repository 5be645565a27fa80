ghost use Rattle.std.specs.Prelude.{◌≡◌, length};
ghost use Rattle.theory.specs.WellFormed.{counts_simple};
ghost use Rattle.layout.specs.declared.refusal.Refusal.TheVariants.{TooManyWitnesses, NotSimple};
ghost use Rattle.layout.specs.Meaning.{axiom_in};
ghost use Rattle.table.specs.Meaning.{table_in};
ghost use Rattle.table.specs.Stages.{FirstPlace, too_many, not_simple};

use crate::stated::Stated;
use layout::axiom::Axiom;
use layout::refusal::Refusal;

impl Stated<'_> {
    /// Refuses the 33rd axiom that asks for a witness.
    pub(crate) fn few_witnesses(&self) -> Result<(), Refusal>
        ensures { FirstPlace (too_many (table_in self.now).axioms) TooManyWitnesses (length self.now.axioms.now) result }
    {
        let mut witnesses = self
            .axioms
            .iter()
            .enumerate()
            .filter(|(_, axiom)| axiom.asks_witness());
        match witnesses.nth(32) {
            Some((k, _)) => Err(Refusal::TooManyWitnesses(k as u8)),
            None => Ok(()),
        }
    }

    /// Whether the axiom does not count, or counts by a simple role.
    fn counts_simple(&self, axiom: Axiom) -> bool
        ensures { result ≡ counts_simple (table_in self.now) (axiom_in «axiom») }
    {
        match axiom {
            Axiom::AtMostOne(_, role, _) => self.is_simple(role),
            _ => true,
        }
    }

    /// Refuses the first axiom that counts by a role that is not simple.
    pub(crate) fn simple_counts(&self) -> Result<(), Refusal>
        ensures { FirstPlace (not_simple (table_in self.now)) NotSimple (length self.now.axioms.now) result }
    {
        let first = self
            .axioms
            .iter()
            .position(|axiom| !self.counts_simple(*axiom));
        match first {
            Some(k) => Err(Refusal::NotSimple(k as u8)),
            None => Ok(()),
        }
    }
}
