//! Terms: their cells, their limits, and terms in place of variables.
use super::samples::{G, deep, term};
use indexmap::IndexSet;
use pp_term::{Cell, Term};
use std::alloc::Global;
use std::process::Abort;

fn expect(rt: &impl Abort, found: &Term, cells: &[Cell]) {
    assert_eq!(rt; found.cells(), cells);
}

#[test]
fn cells_in_prefix_order_are_a_term(rt: HostRuntime) {
    let alloc = rt.alloc();
    let cells = [Cell::Compound(1, 2), Cell::Var(0), Cell::Int(-5)];
    let pair = term(&rt, alloc, &cells);
    expect(&rt, &pair, &cells);
    assert!(rt; pair.same(&pair.copy().expect(&rt, "memory")));
    let atom = Term::atom(alloc, 1).expect(&rt, "memory");
    assert!(rt; !pair.same(&atom));
}

#[test]
fn one_cell_is_a_term(rt: HostRuntime) {
    let alloc = rt.alloc();
    let integer = Term::integer(alloc, 7).expect(&rt, "memory");
    expect(&rt, &integer, &[Cell::Int(7)]);
    let variable = Term::variable(alloc, 7).expect(&rt, "memory");
    expect(&rt, &variable, &[Cell::Var(7)]);
}

fn is_term(rt: &impl Abort, alloc: Global, cells: &[Cell]) -> bool {
    Term::from_cells(cells.to_vec(alloc).expect(rt, "memory")).is_some()
}

#[test]
fn a_cell_too_many_or_too_few_is_no_term(rt: HostRuntime) {
    let alloc = rt.alloc();
    let pair = Cell::Compound(1, 2);
    let one = Cell::Int(1);
    let rows: [(&[Cell], bool); 8] = [
        (&[pair, one, one], true),
        (&[pair, one], false),
        (&[pair, one, one, one], false),
        (&[], false),
        (&[Cell::Int(1_000_000_000_000)], true),
        (&[Cell::Int(-1_000_000_000_000)], true),
        (&[Cell::Int(1_000_000_000_001)], false),
        (&[Cell::Int(-1_000_000_000_001)], false),
    ];
    for (cells, is) in rows {
        assert_eq!(rt; is_term(&rt, alloc, cells), is);
    }
}

/// Whether a functor of so many arguments, with so many arguments behind it, is a term.
fn is_wide_term(rt: &impl Abort, alloc: Global, arity: u32) -> bool {
    let mut cells = Vec::new(alloc);
    cells.push(Cell::Compound(1, arity)).expect(rt, "memory");
    for _ in 0..arity {
        cells.push(Cell::Int(0)).expect(rt, "memory");
    }
    Term::from_cells(cells).is_some()
}

#[test]
fn a_term_has_1_to_255_arguments(rt: HostRuntime) {
    let alloc = rt.alloc();
    for (arity, is) in [(0, false), (1, true), (255, true), (256, false)] {
        assert_eq!(rt; is_wide_term(&rt, alloc, arity), is, "at {arity}");
    }
}

#[test]
fn a_deep_term_is_copied_and_compared(rt: HostRuntime) {
    let alloc = rt.alloc();
    let variable = term(&rt, alloc, &deep(&rt, alloc, 1_000_000, Cell::Var(7)));
    let copy = variable.copy().expect(&rt, "memory");
    assert!(rt; variable.same(&copy));
    assert!(rt; !variable.same(&term(&rt, alloc, &deep(&rt, alloc, 1_000_000, Cell::Var(0)))));
}

#[test]
fn terms_stand_in_place_of_variables(rt: HostRuntime) {
    let alloc = rt.alloc();
    let pair = term(
        &rt,
        alloc,
        &[Cell::Compound(1, 2), Cell::Var(0), Cell::Var(7)],
    );
    let value = term(&rt, alloc, &[G, Cell::Var(3)]);
    let put = pair.substituted(&[value]).expect(&rt, "memory");
    expect(
        &rt,
        &put,
        &[Cell::Compound(1, 2), G, Cell::Var(3), Cell::Var(7)],
    );
}

#[test]
fn variables_are_numbered_by_their_places(rt: HostRuntime) {
    let alloc = rt.alloc();
    let mut names = IndexSet::new(alloc);
    names.insert(9).expect(&rt, "memory");
    let pair = term(
        &rt,
        alloc,
        &[Cell::Compound(1, 2), Cell::Var(4), Cell::Var(9)],
    );
    let numbered = pair.numbered(&mut names).expect(&rt, "memory");
    expect(
        &rt,
        &numbered,
        &[Cell::Compound(1, 2), Cell::Var(1), Cell::Var(0)],
    );
}
