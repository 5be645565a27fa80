ghost use Rattle.std.specs.Prelude.{◌≡◌};
ghost use Rattle.chase.specs.LawOfJudging.{JudgingStands};
ghost use Rattle.layout.specs.Checking.{checked};
ghost use Rattle.table.specs.Answers.{meaning};
ghost use Rattle.trial.specs.Facts.{entries_in};
ghost use Rattle.verdict.specs.Verdicts.{OneVerdict};
ghost use Rattle.judgement.specs.Answering.{JudgedAs, Says, Leaves};

use crate::answer::Answer;
use crate::judgement::{Found, Judgement, Unjudged};
use judging::{bench, judge};
use ledger::Ledger;
use table::check::check;
use table::checked::Checked;
use trial::Desk;
use verdict::Judged;

/// Judges a checked table with a ledger.
fn judge_checked<L: Ledger>(table: Checked, ledger: L) -> Answer<L>
    ensures judged { JudgedAs (meaning table) (L.capacity ledger) result.judgement.0 (entries_in (L.entries result.ledger)) }
    ensures fixed { L.capacity result.ledger ≡ L.capacity ledger }
    ensures ready { L.valid result.ledger }
{
    let mut desk = bench(table, ledger);
    let found = judge(&mut desk);
    let Desk { table, ledger, .. } = desk;
    let judged = match found {
        Ok(finding) => Ok(Found {
            judged: Judged::new(table, finding.verdict),
            done: finding.done,
        }),
        Err(overfull) => Err(Unjudged::Overfull(table, overfull)),
    };
    Answer {
        judgement: Judgement(judged),
        ledger,
    }
}

/// Reads, checks and judges a table with a ledger, and hands the ledger back.
pub fn judge_table<L: Ledger>(bytes: &[u8], ledger: L) -> Answer<L>
    ensures says { Says (checked bytes.now) (L.capacity ledger) result.judgement.0 (entries_in (L.entries result.ledger)) }
    ensures fixed { L.capacity result.ledger ≡ L.capacity ledger }
    ensures leaves { Leaves (checked bytes.now) L.valid ledger result.ledger }
    ensures one { OneVerdict }
    ensures law { JudgingStands }
{
    match check(bytes) {
        Ok(table) => judge_checked(table, ledger),
        Err(refusal) => Answer {
            judgement: Judgement(Err(Unjudged::Refused(refusal))),
            ledger,
        },
    }
}
