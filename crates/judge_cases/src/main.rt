// Judges the tables that stand on standard input, a table to a line, and prints what became of each.
//
// A line has the case's name, how many rows the ledger has, how many bytes are left off at the table's end, its sizes, and then an axiom after each bar: its form and four words.
#![tactic(auto)]

use anyhow::anyhow;
use judgement::judge_table;
use ledger::Entry;
use ledgers::BitLedger;
use std::alloc::Global;
use std::io::Read;

/// The words of a part of a line, each as two bytes, low byte first.
fn put_words(bytes: &mut Vec<u8>, words: &str) -> anyhow::Result<()> {
    for word in words.split_whitespace() {
        let [low, high] = word.parse::<u16>()?.to_le_bytes();
        bytes.push(low)?;
        bytes.push(high)?;
    }
    Ok(())
}

/// The bytes of a table: its sizes, then the forms, then the records.
fn table(heap: Global, sizes: &str, axioms: &str) -> anyhow::Result<Vec<u8>> {
    let mut bytes = Vec::new(heap);
    put_words(&mut bytes, sizes)?;
    let mut records = Vec::new(heap);
    for axiom in axioms.split('|') {
        if let Some((form, words)) = axiom.trim().split_once(' ') {
            put_words(&mut bytes, form)?;
            put_words(&mut records, words)?;
        }
    }
    bytes.extend_from_slice(records.as_slice())?;
    Ok(bytes)
}

/// Judges one table, and prints its line after the case's name.
fn run(rt: &HostRuntime, name: &str, rows: usize, bytes: &[u8]) -> anyhow::Result<()> {
    let mut rows = vec![in rt.alloc(); Entry::blank(); rows]?;
    let answer = judge_table(bytes, BitLedger::new(rows.as_mut_slice()));
    print!(rt; "{name}: {}", answer.judgement)?;
    Ok(())
}

/// Takes a line apart, and judges its table.
fn case(rt: &HostRuntime, line: &str) -> anyhow::Result<()> {
    let Some((head, axioms)) = line.split_once('|') else {
        return Err(anyhow!("a line without a bar"));
    };
    let mut parts = head.split(',');
    let (Some(name), Some(rows), Some(cut), Some(sizes)) = (
        parts.next(),
        parts.next(),
        parts.next(),
        parts.next(),
    ) else {
        return Err(anyhow!("a line without its four parts"));
    };
    let bytes = table(rt.alloc(), sizes, axioms)?;
    let kept = bytes.len().saturating_sub(cut.trim().parse::<usize>()?);
    run(
        rt,
        name,
        rows.trim().parse::<usize>()?,
        &bytes.as_slice()[0..kept],
    )
}

fn main(rt: HostRuntime) -> anyhow::Result<()> {
    let mut text = String::new(rt.alloc());
    let _ = rt.stdin().read_to_string(&mut text)?;
    for line in text.lines() {
        case(&rt, line)?;
    }
    Ok(())
}
