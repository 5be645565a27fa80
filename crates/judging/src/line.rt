ghost use Rattle.std.specs.Prelude.{length};
ghost use Rattle.layout.specs.Checking.{checked};
ghost use Rattle.table.specs.Answers.{meaning};
ghost use Rattle.judging.specs.Answering.{JudgedAs, Says};

use crate::judging::{bench, judge};
use ledger::Entry;
use ledgers::BitLedger;
use table::check::check;
use table::checked::Checked;
use verdict::Judgement;

/// Judges a checked table over the caller's rows.
fn judged(table: Checked, rows: &mut [Entry]) -> Judgement
    ensures { JudgedAs (meaning table) (length rows.old) result }
{
    let mut desk = bench(table, BitLedger::new(rows));
    match judge(&mut desk) {
        Ok(finding) => Judgement::Found(finding.verdict),
        Err(overfull) => Judgement::Overfull(overfull.place()),
    }
}

/// Reads, checks and judges a table over the caller's rows.
pub fn judgement(bytes: &[u8], rows: &mut [Entry]) -> Judgement
    ensures { Says (checked bytes.now) (length rows.old) result }
{
    match check(bytes) {
        Ok(table) => judged(table, rows),
        Err(refusal) => Judgement::Refused(refusal),
    }
}
