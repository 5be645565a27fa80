// Fills a list ledger and a bit ledger of 4,096 rows, asks each for every fact, and prints the counts.
// Arguments name the ledgers to run, `list` or `bits`, so that each can be timed alone.
#![tactic(auto)]

use ledger::{Added, Entry, Fact, Ledger};
use ledgers::{BitLedger, ListLedger};
use names::{Role, Term};
use std::fmt::{self, Display, Formatter, Write};
use std::{env, io};

/// How many rows a ledger has.
const ROWS: usize = 4096;

/// How many facts take part: more than there are rows.
const FACTS: u32 = 5760;

/// How many facts are added, and then asked for.
const CALLS: u32 = 524_288;

/// What became of the calls.
#[derive(Clone, Copy, Default)]
struct Counts {
    appended: u32,
    known: u32,
    refused: u32,
    held: u32,
    missing: u32,
}

impl Display for Counts {
    fn fmt<W: Write>(&self, f: &mut Formatter<W>) -> fmt::Result {
        let Counts {
            appended,
            known,
            refused,
            held,
            missing,
        } = *self;
        write!(
            f,
            "{appended} appended, {known} known, {refused} refused, {held} held, {missing} missing"
        )
    }
}

/// A fact by a number; numbers below 23,040 give different facts.
fn link(number: u32) -> Fact {
    let from = Term {
        number: (number / 48 % 48) as u8,
    };
    let to = Term {
        number: (number % 48) as u8,
    };
    Fact::Link(
        Role {
            number: (number / 2304 % 10) as u8,
        },
        from,
        to,
    )
}

/// Adds the facts of that many numbers, asks for each of them, and counts the answers.
fn fill_and_ask<L: Ledger>(ledger: &mut L, numbers: u32) -> Counts {
    ledger.empty();
    let mut counts = Counts::default();
    for number in 0..numbers {
        match ledger.add(Entry::asserted(link(number % FACTS))) {
            Ok(Added::Appended) => counts.appended += 1,
            Ok(Added::Known) => counts.known += 1,
            Err(_) => counts.refused += 1,
        }
    }
    // One walk counts both answers.
    for number in 0..numbers {
        if ledger.holds(link(number % FACTS)) {
            counts.held += 1;
        } else {
            counts.missing += 1;
        }
    }
    counts
}

/// Whether that ledger was asked for: none named means both.
fn wanted(rt: &HostRuntime, name: &str) -> io::Result<bool> {
    let mut named = env::args(rt)?.skip(1).peekable();
    Ok(named.peek().is_none() || named.any(|arg| arg.as_str() == name))
}

/// Runs the ledger where it was asked for, and prints what became of the calls.
fn run<L: Ledger>(rt: &HostRuntime, name: &str, ledger: &mut L) -> io::Result<()> {
    if wanted(rt, name)? {
        println!(rt; "{name}: {}", fill_and_ask(ledger, CALLS))?;
    }
    Ok(())
}

fn main(rt: HostRuntime) -> io::Result<()> {
    let mut rows = [Entry::blank(); ROWS];
    run(&rt, "list", &mut ListLedger::new(&mut rows))?;
    run(&rt, "bits", &mut BitLedger::new(&mut rows))
}
