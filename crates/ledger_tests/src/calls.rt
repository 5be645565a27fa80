// Calls as data, so that one list of them can be put to every ledger.
use ledger::{Added, Entry, Fact, Full, Ledger, add_all};
use names::{Concept, Role, Term};
use std::alloc::{AllocError, Global};

/// A call of a ledger.
#[derive(Clone, Copy)]
pub enum Call {
    Empty,
    Add(Fact),
    AddAll([Fact; 3]),
    Holds(Fact),
    Count,
    Capacity,
    EntryAt(usize),
    Cut(usize),
}

/// What a call answers.
#[derive(Clone, Copy, PartialEq, Eq, Debug)]
pub enum Answer {
    Done,
    Added(Result<Added, Full>),
    Joined(Result<usize, Full>),
    Held(bool),
    Number(usize),
    Found(Option<Entry>),
}

/// A call with the answer that is due.
#[derive(Clone, Copy)]
pub struct Step {
    pub call: Call,
    pub due: Answer,
}

/// Puts a call to the ledger.
fn ask<L: Ledger>(ledger: &mut L, call: Call) -> Answer
    requires { L.valid ledger.old }
    ensures { L.valid ledger.new }
{
    match call {
        Call::Empty => {
            ledger.empty();
            Answer::Done
        }
        Call::Add(fact) => Answer::Added(ledger.add(Entry::asserted(fact))),
        Call::AddAll(facts) => Answer::Joined(add_all(ledger, &facts.map(Entry::asserted))),
        Call::Holds(fact) => Answer::Held(ledger.holds(fact)),
        Call::Count => Answer::Number(ledger.count()),
        Call::Capacity => Answer::Number(ledger.capacity()),
        Call::EntryAt(place) => Answer::Found(ledger.entry_at(place)),
        Call::Cut(k) => {
            ledger.cut(k);
            Answer::Done
        }
    }
}

/// Empties the ledger and tells whether it answers each step as is due.
pub(crate) fn follows<L: Ledger>(ledger: &mut L, steps: &[Step]) -> bool {
    ledger.empty();
    steps.iter().all(
        |step: &Step| -> bool
            requires { L.valid ledger.now }
            ensures { L.valid ledger.exit.now }
        { ask(ledger, step.call) == step.due },
    )
}

/// The next of a row of numbers that jump about.
fn stir(number: u32) -> u32 {
    number.wrapping_mul(1_664_525).wrapping_add(1_013_904_223)
}

/// A term among the first eight, so that facts come again.
fn term(number: u32) -> Term {
    Term {
        number: (number % 8) as u8,
    }
}

/// A fact by a number.
fn fact_by(number: u32) -> Fact {
    let high = number / 65_536;
    if high % 3 == 0 {
        Fact::Is(
            Concept {
                number: (high / 8 % 33) as u8,
            },
            term(high / 512),
        )
    } else {
        Fact::Link(
            Role {
                number: (high / 8 % 10) as u8,
            },
            term(high / 128),
            term(high / 1024),
        )
    }
}

/// A call by a number: mostly asking and adding, at times a cut, seldom an emptying.
fn call_by(number: u32) -> Call {
    let place = (number / 4096 % 64) as usize;
    match number / 1024 % 64 {
        0 => Call::Empty,
        1 => Call::Count,
        2 => Call::Capacity,
        3 | 4 => Call::Cut(place),
        5..=12 => {
            let next = stir(number);
            Call::AddAll([fact_by(number), fact_by(next), fact_by(stir(next))])
        }
        13..=24 => Call::EntryAt(place),
        25..=40 => Call::Holds(fact_by(number)),
        _ => Call::Add(fact_by(number)),
    }
}

/// Empties the ledger, puts that many calls to it and lists the answers.
pub(crate) fn drive<L: Ledger>(
    ledger: &mut L,
    calls: u32,
    seed: u32,
    alloc: Global,
) -> Result<Vec<Answer>, AllocError> {
    ledger.empty();
    let mut answers = Vec::new(alloc);
    let mut number = seed;
    for _ in 0..calls {
        number = stir(number);
        answers.push(ask(ledger, call_by(number)))?;
    }
    Ok(answers)
}
