//! Which rows cover which.
use super::samples::{A, B, F, TWO, X, Y, deep, row};
use pp_order::covers;
use pp_term::{Cell, Row};
use std::alloc::Global;
use std::process::Abort;

/// A row that is written: its columns, and the domains of its variables from 0 on.
type Written<'a> = (&'a [&'a [Cell]], &'a [Option<(i8, i8)>]);

/// Whether the first row covers the second, which has as many columns.
fn is_above(rt: &impl Abort, alloc: Global, general: &Row, special: &Row) -> bool {
    if general.columns().len() == special.columns().len() {
        covers(alloc, general, special).expect(rt, "memory")
    } else {
        false
    }
}

fn expect(rt: &impl Abort, alloc: Global, general: Written, special: Written, wanted: bool) {
    let general = row(rt, alloc, general.0, general.1);
    assert_eq!(rt;
        is_above(rt, alloc, &general, &row(rt, alloc, special.0, special.1)),
        wanted
    );
}

#[test]
fn a_variable_stands_for_one_term(rt: HostRuntime) {
    let alloc = rt.alloc();
    let apart: Written = (&[&[X], &[Y]], &[]);
    let shared: Written = (&[&[X], &[X]], &[]);
    let same: Written = (&[&[A], &[A]], &[]);
    let other: Written = (&[&[A], &[B]], &[]);
    let none: Written = (&[], &[]);
    let rows = [
        (apart, same, true),
        (apart, shared, true),
        (shared, same, true),
        (shared, other, false),
        (shared, apart, false),
        (same, shared, false),
        (none, none, true),
    ];
    for (general, special, wanted) in rows {
        expect(&rt, alloc, general, special, wanted);
    }
}

#[test]
fn a_ranged_variable_goes_inside_its_domain(rt: HostRuntime) {
    let alloc = rt.alloc();
    let ranged: Written = (&[&[X]], &[Some((1, 3))]);
    let any: Written = (&[&[X]], &[None]);
    let narrow: Written = (&[&[X]], &[Some((2, 3))]);
    let shifted: Written = (&[&[X]], &[Some((2, 5))]);
    let two: Written = (&[&[TWO]], &[]);
    let four: Written = (&[&[Cell::Int(4)]], &[]);
    let atom: Written = (&[&[A]], &[]);
    for (special, wanted) in [
        (two, true),
        (narrow, true),
        (ranged, true),
        (four, false),
        (atom, false),
        (any, false),
        (shifted, false),
    ] {
        expect(&rt, alloc, ranged, special, wanted);
        expect(&rt, alloc, any, special, true);
    }
}

#[test]
fn compounds_are_walked_in_both_rows(rt: HostRuntime) {
    let alloc = rt.alloc();
    let general: Written = (&[&[F, X, Y], &[X]], &[]);
    let special: Written = (&[&[F, F, A, TWO, B], &[F, A, TWO]], &[]);
    let other: Written = (&[&[F, F, A, TWO, B], &[F, A, A]], &[]);
    expect(&rt, alloc, general, special, true);
    expect(&rt, alloc, general, other, false);
    expect(&rt, alloc, special, general, false);
}

#[test]
fn a_deep_term_takes_no_stack(rt: HostRuntime) {
    let alloc = rt.alloc();
    let variable = row(&rt, alloc, &[&deep(&rt, alloc, 1_000_000, X)], &[]);
    let atom = row(&rt, alloc, &[&deep(&rt, alloc, 1_000_000, A)], &[]);
    assert!(rt; is_above(&rt, alloc, &variable, &atom) && !is_above(&rt, alloc, &atom, &variable));
    assert!(rt; is_above(&rt, alloc, &row(&rt, alloc, &[&[X]], &[]), &atom));
}

#[test]
fn a_row_of_many_variables_covers_itself(rt: HostRuntime) {
    let alloc = rt.alloc();
    let variables: [Cell; 20] = [
        Cell::Var(0),
        Cell::Var(1),
        Cell::Var(2),
        Cell::Var(3),
        Cell::Var(4),
        Cell::Var(5),
        Cell::Var(6),
        Cell::Var(7),
        Cell::Var(8),
        Cell::Var(9),
        Cell::Var(10),
        Cell::Var(11),
        Cell::Var(12),
        Cell::Var(13),
        Cell::Var(14),
        Cell::Var(15),
        Cell::Var(16),
        Cell::Var(17),
        Cell::Var(18),
        Cell::Var(19),
    ];
    let mut columns: Vec<&[Cell]> = Vec::new(alloc);
    for variable in &variables {
        columns
            .push(std::slice::from_ref(variable))
            .expect(&rt, "memory");
    }
    let many = row(&rt, alloc, columns.as_slice(), &[]);
    assert!(rt; is_above(&rt, alloc, &many, &many));
}
