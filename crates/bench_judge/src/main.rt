// Judges the table on standard input, as often as the first argument says or else once, and prints the trials made and the passes ended.
#![tactic(auto)]

use judgement::judge_table;
use ledger::Entry;
use ledgers::BitLedger;
use std::env;
use std::io::Read;

/// As many rows as there are facts.
const ROWS: usize = 24_624;

/// How often the table is judged.
fn runs(rt: &HostRuntime) -> anyhow::Result<u32> {
    match env::args(rt)?.nth(1) {
        Some(word) => Ok(word.parse::<u32>()?),
        None => Ok(1),
    }
}

fn main(rt: HostRuntime) -> anyhow::Result<()> {
    let mut bytes = Vec::new(rt.alloc());
    let _ = rt.stdin().read_to_end(&mut bytes)?;
    let mut rows = vec![in rt.alloc(); Entry::blank(); ROWS]?;
    let mut trials = 0u64;
    let mut passes = 0u64;
    for _ in 0..runs(&rt)? {
        let answer = judge_table(bytes.as_slice(), BitLedger::new(rows.as_mut_slice()));
        match &answer.judgement.0 {
            Ok(found) => {
                trials = trials.saturating_add(found.done.trials);
                passes = passes.saturating_add(found.done.passes);
            }
            Err(unjudged) => println!(rt; "{unjudged}")?,
        }
    }
    println!(rt; "{trials} trials, {passes} passes")?;
    Ok(())
}
