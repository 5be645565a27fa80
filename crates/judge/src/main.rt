// Judges the table that stands on standard input, with 4,096 rows, and prints its verdict or its refusal.
#![tactic(auto)]

use judgement::judge_table;
use ledger::Entry;
use ledgers::BitLedger;
use std::io;
use std::io::Read;

/// How many entries judging may make.
const ROWS: usize = 4096;

fn main(rt: HostRuntime) -> io::Result<()> {
    let mut bytes = Vec::new(rt.alloc());
    let _ = rt.stdin().read_to_end(&mut bytes)?;
    let mut rows = vec![in rt.alloc(); Entry::blank(); ROWS]?;
    let answer = judge_table(bytes.as_slice(), BitLedger::new(rows.as_mut_slice()));
    print!(rt; "{}", answer.judgement)
}
