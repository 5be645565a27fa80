// What judging answers.
ghost use Rattle.std.specs.Prelude.{◌≡◌};
ghost use Rattle.judging.specs.declared.finding.Overfull.TheVariants.{AtStart, AtTrial};

use course::{Halted, Progress};
use ledger::Full;
use verdict::Verdict;

/// The verdict on a table, with the trials made and the passes ended.
#[derive(Clone, Copy, PartialEq, Eq, Debug)]
pub struct Finding {
    pub verdict: Verdict,
    pub done: Progress,
}

/// Why judging needs more entries than the ledger has rows: its first entries find none, or a trial does.
#[derive(Clone, Copy, PartialEq, Eq, Debug)]
pub enum Overfull {
    AtStart(Full),
    AtTrial(Halted),
}

impl From<Full> for Overfull {
    ghost from_gives = { λ full overfull. overfull ≡ AtStart full };

    fn from(full: Full) -> Overfull {
        Overfull::AtStart(full)
    }
}

impl From<Halted> for Overfull {
    ghost from_gives = { λ halted overfull. overfull ≡ AtTrial halted };

    fn from(halted: Halted) -> Overfull {
        Overfull::AtTrial(halted)
    }
}
