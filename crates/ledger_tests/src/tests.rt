use crate::calls::{Answer, Call, Step, drive, follows};
use ledger::{Added, Entry, Fact, Full};
use ledgers::{BitLedger, ListLedger};
use names::{Concept, Role, Term};
use std::test::Fail;

/// Puts the steps to both ledgers, one after the other over the same rows.
fn follow(rows: &mut [Entry], steps: &[Step]) -> Result<(), Fail> {
    if !follows(&mut ListLedger::new(rows), steps) {
        return Err(Fail::new("list"));
    }
    if !follows(&mut BitLedger::new(rows), steps) {
        return Err(Fail::new("bits"));
    }
    Ok(())
}

fn step(call: Call, due: Answer) -> Step {
    Step { call, due }
}

/// The entry that has that fact and that no rule derived.
fn found(fact: Fact) -> Answer {
    Answer::Found(Some(Entry::asserted(fact)))
}

/// Term 3 is of that concept.
fn of(number: u8) -> Fact {
    Fact::Is(
        Concept {
            number: number % 33,
        },
        Term { number: 3 },
    )
}

#[test]
fn capacity_zero() -> Result<(), Fail> {
    let steps = [
        step(Call::Capacity, Answer::Number(0)),
        step(Call::Add(of(1)), Answer::Added(Err(Full { capacity: 0 }))),
        step(Call::Holds(of(1)), Answer::Held(false)),
        step(
            Call::AddAll([of(1), of(1), of(1)]),
            Answer::Joined(Err(Full { capacity: 0 })),
        ),
        step(Call::EntryAt(0), Answer::Found(None)),
        step(Call::Count, Answer::Number(0)),
    ];
    let mut rows: [Entry; 0] = [];
    follow(&mut rows, &steps)
}

#[test]
fn capacity_one() -> Result<(), Fail> {
    let steps = [
        step(Call::AddAll([of(1), of(1), of(1)]), Answer::Joined(Ok(1))),
        step(Call::Add(of(1)), Answer::Added(Ok(Added::Known))),
        step(Call::Add(of(2)), Answer::Added(Err(Full { capacity: 1 }))),
        step(Call::Cut(0), Answer::Done),
        step(Call::Holds(of(1)), Answer::Held(false)),
        step(Call::Add(of(2)), Answer::Added(Ok(Added::Appended))),
        step(Call::EntryAt(0), found(of(2))),
        step(Call::EntryAt(1), Answer::Found(None)),
    ];
    let mut rows = [Entry::blank(); 1];
    follow(&mut rows, &steps)
}

#[test]
fn full_then_emptied() -> Result<(), Fail> {
    let steps = [
        step(Call::AddAll([of(1), of(2), of(1)]), Answer::Joined(Ok(2))),
        step(Call::Add(of(3)), Answer::Added(Ok(Added::Appended))),
        step(Call::Add(of(4)), Answer::Added(Err(Full { capacity: 3 }))),
        step(Call::Add(of(2)), Answer::Added(Ok(Added::Known))),
        step(Call::Count, Answer::Number(3)),
        step(Call::Empty, Answer::Done),
        step(Call::Holds(of(1)), Answer::Held(false)),
        step(Call::Add(of(4)), Answer::Added(Ok(Added::Appended))),
        step(Call::EntryAt(0), found(of(4))),
        step(Call::EntryAt(1), Answer::Found(None)),
        step(Call::EntryAt(usize::MAX), Answer::Found(None)),
    ];
    let mut rows = [Entry::blank(); 3];
    follow(&mut rows, &steps)
}

#[test]
fn all_or_none() -> Result<(), Fail> {
    let steps = [
        step(Call::AddAll([of(1), of(2), of(2)]), Answer::Joined(Ok(2))),
        step(
            Call::AddAll([of(3), of(4), of(5)]),
            Answer::Joined(Err(Full { capacity: 4 })),
        ),
        step(Call::Count, Answer::Number(2)),
        step(Call::Holds(of(3)), Answer::Held(false)),
        step(Call::AddAll([of(1), of(4), of(3)]), Answer::Joined(Ok(2))),
        step(Call::EntryAt(2), found(of(4))),
        step(Call::EntryAt(3), found(of(3))),
        step(Call::AddAll([of(1), of(2), of(4)]), Answer::Joined(Ok(0))),
    ];
    let mut rows = [Entry::blank(); 4];
    follow(&mut rows, &steps)
}

#[test]
fn last_fact() -> Result<(), Fail> {
    let end = Term { number: 47 };
    let last = Fact::Link(Role { number: 9 }, end, end);
    let other = Fact::Is(Concept { number: 32 }, end);
    let steps = [
        step(Call::Holds(last), Answer::Held(false)),
        step(Call::Add(last), Answer::Added(Ok(Added::Appended))),
        step(Call::Holds(last), Answer::Held(true)),
        step(Call::Holds(other), Answer::Held(false)),
        step(Call::Add(other), Answer::Added(Ok(Added::Appended))),
        step(Call::Cut(1), Answer::Done),
        step(Call::Holds(other), Answer::Held(false)),
        step(Call::EntryAt(0), found(last)),
    ];
    let mut rows = [Entry::blank(); 2];
    follow(&mut rows, &steps)
}

#[test]
fn both_answer_alike(rt: HostRuntime) -> Result<(), Fail> {
    let mut rows = [Entry::blank(); 40];
    let list = drive(&mut ListLedger::new(&mut rows), 20_000, 7, rt.alloc())?;
    let bits = drive(&mut BitLedger::new(&mut rows), 20_000, 7, rt.alloc())?;
    assert_eq!(rt; list, bits);
    let came = [
        list.iter().any(|answer| matches!(answer, Answer::Done)),
        list.iter()
            .any(|answer| matches!(answer, Answer::Added(Ok(Added::Known)))),
        list.iter().any(|answer| matches!(answer, Answer::Added(Ok(Added::Appended)))),
        list.iter()
            .any(|answer| matches!(answer, Answer::Added(Err(_)))),
        list.iter()
            .any(|answer| matches!(answer, Answer::Joined(Ok(_)))),
        list.iter()
            .any(|answer| matches!(answer, Answer::Joined(Err(_)))),
        list.iter()
            .any(|answer| matches!(answer, Answer::Held(true))),
        list.iter()
            .any(|answer| matches!(answer, Answer::Held(false))),
        list.iter()
            .any(|answer| matches!(answer, Answer::Number(_))),
        list.iter()
            .any(|answer| matches!(answer, Answer::Found(Some(_)))),
        list.iter()
            .any(|answer| matches!(answer, Answer::Found(None))),
    ];
    assert_eq!(rt; came, [true; 11]);
    Ok(())
}
