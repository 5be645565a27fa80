use crate::bytes::{LODGE, Row, answer, encoded};
use std::alloc::{AllocError, Global};
use std::test::Fail;

const ACCEPTED: Option<(u8, u8)> = None;

/// Checks number and place of the refusal that a table meets.
fn meets(heap: Global, sizes: [u16; 4], rows: &[Row], due: Option<(u8, u8)>) -> Result<(), Fail> {
    let bytes = encoded(heap, sizes, rows)?;
    if answer(bytes.as_slice()) == due {
        Ok(())
    } else {
        Err(Fail::new("another answer"))
    }
}

/// As many different axioms as asked for, none of which asks for a witness.
fn many(heap: Global, n: u16) -> Result<Vec<Row>, AllocError> {
    (0..n).map(|k| [4, 2, k / 32, k % 32, 3]).collect(heap)
}

/// As many different axioms as asked for that ask for a witness.
fn witnesses(heap: Global, n: u16) -> Result<Vec<Row>, AllocError> {
    (0..n).map(|k| [8, k % 32, k / 32, 2, 0]).collect(heap)
}

#[test]
fn the_lodge_table_is_accepted(rt: HostRuntime) -> Result<(), Fail> {
    let bytes = encoded(rt.alloc(), [7, 2, 2, 7], &LODGE)?;
    assert_eq!(rt; bytes.len(), 78);
    assert_eq!(rt; answer(bytes.as_slice()), ACCEPTED);
    Ok(())
}

#[test]
fn a_short_table_is_refused_before_its_sizes_are_looked_at(rt: HostRuntime) {
    assert_eq!(rt; answer(&[]), Some((1, 0)));
    assert_eq!(rt; answer(&[255, 255, 255, 255, 255, 255, 255]), Some((1, 0)));
}

#[test]
fn sizes_are_looked_at_in_order(rt: HostRuntime) -> Result<(), Fail> {
    let heap = rt.alloc();
    meets(heap, [1, 8, 0, 65], &[], Some((2, 0)))?;
    meets(heap, [33, 8, 0, 65], &[], Some((2, 0)))?;
    meets(heap, [32, 8, 0, 65], &[], Some((2, 1)))?;
    meets(heap, [32, 7, 0, 65], &[], Some((2, 2)))?;
    meets(heap, [32, 7, 17, 65], &[], Some((2, 2)))?;
    meets(heap, [32, 7, 16, 65], &[], Some((2, 3)))?;
    meets(heap, [2, 0, 1, 0], &[], ACCEPTED)
}

#[test]
fn the_length_follows_from_the_sizes(rt: HostRuntime) -> Result<(), Fail> {
    let heap = rt.alloc();
    meets(heap, [7, 2, 2, 8], &LODGE, Some((3, 0)))?;
    meets(heap, [7, 2, 2, 6], &LODGE, Some((3, 0)))?;
    let mut bytes = encoded(heap, [7, 2, 2, 7], &LODGE)?;
    bytes.push(0)?;
    assert_eq!(rt; answer(bytes.as_slice()), Some((3, 0)));
    Ok(())
}

#[test]
fn sixty_four_axioms_are_the_most(rt: HostRuntime) -> Result<(), Fail> {
    let heap = rt.alloc();
    let rows = many(heap, 64)?;
    meets(heap, [32, 0, 1, 64], rows.as_slice(), ACCEPTED)?;
    let rows = many(heap, 65)?;
    meets(heap, [32, 0, 1, 65], rows.as_slice(), Some((2, 3)))
}

#[test]
fn an_axiom_passes_its_tests_before_the_next_is_looked_at(rt: HostRuntime) -> Result<(), Fail> {
    let heap = rt.alloc();
    let open = [11, 2, 0, 0, 0];
    let unknown = [13, 9, 9, 9, 9];
    // an unknown form before a bad argument, in the same line and in a later one
    meets(
        heap,
        [3, 1, 1, 2],
        &[unknown, [4, 9, 0, 0, 0]],
        Some((4, 0)),
    )?;
    meets(heap, [3, 1, 1, 1], &[[0, 0, 0, 0, 0]], Some((4, 0)))?;
    // a bad argument before an unknown form in a later line
    meets(
        heap,
        [3, 1, 1, 2],
        &[[4, 2, 2, 3, 2], unknown],
        Some((5, 0)),
    )?;
    // an unused word, although the axiom stands twice but for it
    meets(heap, [3, 1, 1, 2], &[open, [11, 2, 0, 0, 1]], Some((5, 1)))?;
    // a repetition before an unknown form in a later line
    meets(heap, [3, 1, 1, 3], &[open, open, unknown], Some((6, 1)))
}

#[test]
fn thirty_two_witness_axioms_are_the_most(rt: HostRuntime) -> Result<(), Fail> {
    let heap = rt.alloc();
    let rows = witnesses(heap, 32)?;
    meets(heap, [32, 7, 1, 32], rows.as_slice(), ACCEPTED)?;
    // a 33rd, although a role that is not simple is counted
    let mut rows = witnesses(heap, 33)?;
    rows.push([3, 0, 0, 0, 0])?;
    rows.push([7, 2, 0, 2, 0])?;
    meets(heap, [32, 7, 1, 35], rows.as_slice(), Some((7, 32)))
}

#[test]
fn a_counted_role_is_simple(rt: HostRuntime) -> Result<(), Fail> {
    let heap = rt.alloc();
    let transitive = [3, 0, 0, 0, 0];
    let inverse = [2, 0, 1, 0, 0];
    let larger = [1, 1, 2, 0, 0];
    meets(
        heap,
        [3, 2, 1, 2],
        &[[7, 2, 0, 2, 0], transitive],
        Some((8, 0)),
    )?;
    meets(heap, [3, 2, 1, 2], &[[7, 2, 1, 2, 0], transitive], ACCEPTED)?;
    // 0 ⊑ 1⁻ and 1 ⊑ 2: then 0⁻ ⊑ 1 ⊑ 2
    meets(
        heap,
        [3, 3, 1, 4],
        &[transitive, inverse, larger, [7, 2, 2, 2, 0]],
        Some((8, 3)),
    )?;
    // 1⁻ ⊑ 2⁻ follows from 1 ⊑ 2: then 0 ⊑ 1⁻ ⊑ 2⁻ ⊑ 3, as 2 ⊑ 3⁻
    meets(
        heap,
        [3, 4, 1, 5],
        &[
            transitive,
            inverse,
            larger,
            [2, 2, 3, 0, 0],
            [7, 2, 3, 2, 0],
        ],
        Some((8, 4)),
    )?;
    // what a transitive role includes may be simple
    meets(
        heap,
        [3, 2, 1, 3],
        &[[3, 1, 0, 0, 0], [1, 0, 1, 0, 0], [7, 2, 0, 2, 0]],
        ACCEPTED,
    )
}

#[test]
fn bytes_of_any_kind_are_read_or_refused(rt: HostRuntime) -> Result<(), Fail> {
    let heap = rt.alloc();
    let mut seed = 7u32;
    let mut refused = 0u32;
    // Loops and no chains: one seed runs through all the tables.
    for length in 0..400u32 {
        let mut bytes = Vec::new(heap);
        for k in 0..length {
            seed = seed.wrapping_mul(1664525).wrapping_add(1013904223);
            let noise = (seed >> 24) as u8;
            bytes.push(if k < 8 { noise % 8 } else { noise % 14 })?;
        }
        if answer(bytes.as_slice()).is_some() {
            refused = refused.wrapping_add(1);
        }
    }
    assert!(rt; refused > 390);
    Ok(())
}
