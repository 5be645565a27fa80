use crate::bytes::{LODGE, Row, encoded};
use names::Role;
use std::alloc::Global;
use std::test::Fail;
use table::check::check as checked;
use table::expression::Expression;

/// Checks how many roles are simple, how many axioms ask for a witness, and how many of those are unsafe.
fn counts(
    heap: Global,
    sizes: [u16; 4],
    rows: &[Row],
    due: (usize, usize, usize),
) -> Result<(), Fail> {
    let bytes = encoded(heap, sizes, rows)?;
    let table = checked(bytes.as_slice()).map_err(|_| Fail::new("refused"))?;
    let counted = (
        table.simple_roles(),
        table.witness_axioms(),
        table.unsafe_axioms(),
    );
    if counted == due {
        Ok(())
    } else {
        Err(Fail::new("other counts"))
    }
}

#[test]
fn the_lodge_table_has_one_unsafe_axiom(rt: HostRuntime) -> Result<(), Fail> {
    counts(rt.alloc(), [7, 2, 2, 7], &LODGE, (2, 1, 1))?;
    let bytes = encoded(rt.alloc(), [7, 2, 2, 7], &LODGE)?;
    let table = checked(bytes.as_slice()).map_err(|_| Fail::new("refused"))?;
    assert!(rt; table.is_unsafe(1));
    assert!(rt; !table.is_unsafe(0));
    assert!(rt; !table.is_unsafe(7));
    Ok(())
}

#[test]
fn without_its_third_record_the_lodge_table_is_safe(rt: HostRuntime) -> Result<(), Fail> {
    let rows = [LODGE[0], LODGE[1], LODGE[3], LODGE[4], LODGE[5], LODGE[6]];
    counts(rt.alloc(), [7, 2, 2, 6], &rows, (2, 1, 0))
}

#[test]
fn witnesses_are_unsafe_by_what_includes_their_role(rt: HostRuntime) -> Result<(), Fail> {
    let heap = rt.alloc();
    let sizes = [3, 3, 1, 3];
    let witness = [8, 2, 0, 2, 0];
    let counted = [7, 2, 1, 2, 0];
    let inverse = [2, 0, 1, 0, 0];
    // counted, as it is, by a larger role, by a larger role the other way round
    counts(heap, [3, 3, 1, 2], &[witness, [7, 2, 0, 2, 0]], (3, 1, 1))?;
    counts(heap, sizes, &[witness, counted, [1, 0, 1, 0, 0]], (3, 1, 1))?;
    counts(heap, sizes, &[witness, counted, inverse], (3, 1, 1))?;
    // a smaller role does not count
    counts(heap, sizes, &[witness, counted, [1, 1, 0, 0, 0]], (3, 1, 0))?;
    // a filler counts where the inverse is included, and not at ⊤
    counts(heap, [3, 3, 1, 2], &[witness, [6, 0, 2, 2, 0]], (3, 1, 0))?;
    counts(heap, sizes, &[witness, [6, 1, 2, 2, 0], inverse], (3, 1, 1))?;
    counts(heap, sizes, &[witness, [6, 1, 0, 2, 0], inverse], (3, 1, 0))?;
    // 1 ⊑ 2 includes 1⁻ in 2⁻: so 0 ⊑ 1⁻ ⊑ 2⁻
    counts(
        heap,
        [3, 3, 1, 4],
        &[witness, [6, 2, 2, 2, 0], inverse, [1, 1, 2, 0, 0]],
        (3, 1, 1),
    )
}

#[test]
fn simple_roles_are_counted(rt: HostRuntime) -> Result<(), Fail> {
    let heap = rt.alloc();
    let transitive = [3, 1, 0, 0, 0];
    let turned = [2, 1, 2, 0, 0];
    counts(heap, [2, 7, 1, 0], &[], (7, 0, 0))?;
    counts(heap, [2, 3, 1, 1], &[transitive], (2, 0, 0))?;
    counts(heap, [2, 3, 1, 2], &[transitive, turned], (1, 0, 0))?;
    counts(
        heap,
        [2, 3, 1, 3],
        &[transitive, turned, [1, 2, 0, 0, 0]],
        (0, 0, 0),
    )
}

#[test]
fn inclusions_hold_of_inverses_too(rt: HostRuntime) -> Result<(), Fail> {
    let bytes = encoded(
        rt.alloc(),
        [2, 3, 1, 2],
        &[[1, 0, 1, 0, 0], [2, 1, 2, 0, 0]],
    )?;
    let table = checked(bytes.as_slice()).map_err(|_| Fail::new("refused"))?;
    let first = Role { number: 0 };
    let second = Role { number: 1 };
    let third = Role { number: 2 };
    assert!(rt; table.includes(Expression::Plain(first), Expression::Inverse(third)));
    assert!(rt; table.includes(Expression::Inverse(first), Expression::Plain(third)));
    assert!(rt; table.includes(Expression::Inverse(first), Expression::Inverse(second)));
    assert!(rt; !table.includes(Expression::Plain(first), Expression::Plain(third)));
    assert!(rt; !table.includes(Expression::Plain(second), Expression::Plain(first)));
    assert!(rt;
        table.includes(
            Expression::Plain(Role { number: 5 }),
            Expression::Plain(Role { number: 5 }),
        )
    );
    Ok(())
}
