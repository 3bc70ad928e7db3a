//! Rows: canonical numbers, equality, the call of a face.
use super::samples::{A, X, Y, deep, row};
use pp_term::{Cell, Row};
use std::alloc::Global;
use std::process::Abort;

const Z: Cell = Cell::Var(2);

/// A row that is written: its columns, and the domains of its variables from 0 on.
type Written<'a> = (&'a [&'a [Cell]], &'a [Option<(i8, i8)>]);

/// These are the intervals of the row's domains, each with one interval, or none.
fn expect_domains(rt: &impl Abort, found: &Row, wanted: &[Option<(i64, i64)>]) {
    assert_eq!(rt; found.domains().len(), wanted.len());
    for (domain, interval) in found.domains().iter().zip(wanted) {
        match domain {
            Some(domain) => assert_eq!(rt; domain.intervals().first().copied(), *interval),
            None => assert!(rt; interval.is_none()),
        }
    }
}

fn expect_columns(rt: &impl Abort, found: &Row, wanted: &[&[Cell]]) {
    assert_eq!(rt; found.columns().len(), wanted.len());
    for (column, cells) in found.columns().iter().zip(wanted) {
        assert_eq!(rt; column.cells(), *cells);
    }
}

#[test]
fn variables_are_numbered_by_first_occurrence(rt: HostRuntime) {
    let alloc = rt.alloc();
    let pair = Cell::Compound(1, 2);
    let found = row(
        &rt,
        alloc,
        &[
            &[Cell::Var(7)],
            &[pair, Cell::Var(1), Cell::Var(7)],
            &[Cell::Var(2)],
        ],
        &[Some((5, 6)), Some((1, 3)), None],
    );
    expect_columns(&rt, &found, &[&[X], &[pair, Y, X], &[Z]]);
    expect_domains(&rt, &found, &[None, Some((1, 3)), None]);
}

fn are_same(rt: &impl Abort, alloc: Global, one: Written, other: Written) -> bool {
    let one = row(rt, alloc, one.0, one.1);
    one.same(&row(rt, alloc, other.0, other.1))
}

#[test]
fn rows_equal_up_to_renaming_are_the_same(rt: HostRuntime) {
    let alloc = rt.alloc();
    let some = Some((1, 2));
    let one: Written = (&[&[X], &[Y]], &[some, None]);
    let turned: Written = (&[&[Y], &[X]], &[None, some]);
    let wider: Written = (&[&[X], &[Y]], &[Some((1, 3)), None]);
    let shared: Written = (&[&[X], &[X]], &[some]);
    for (other, same) in [(one, true), (turned, true), (wider, false), (shared, false)] {
        assert_eq!(rt; are_same(&rt, alloc, one, other), same);
    }
}

#[test]
fn a_copy_is_the_same(rt: HostRuntime) {
    let alloc = rt.alloc();
    let found = row(&rt, alloc, &[&[X], &[A], &[Y]], &[Some((1, 2)), None]);
    assert!(rt; found.same(&found.copy().expect(&rt, "memory")));
}

#[test]
fn the_call_has_the_distinct_variables(rt: HostRuntime) {
    let alloc = rt.alloc();
    let face = row(&rt, alloc, &[&[Y], &[A], &[Y]], &[None, Some((4, 8))]);
    let call = face.call().expect(&rt, "memory");
    expect_columns(&rt, &call, &[&[X]]);
    expect_domains(&rt, &call, &[Some((4, 8))]);
}

#[test]
fn numbered_columns_are_a_row(rt: HostRuntime) {
    let alloc = rt.alloc();
    let none = Row::from_numbered(Vec::new(alloc), Vec::new(alloc));
    expect_columns(&rt, &none, &[]);
}

#[test]
fn a_deep_row_takes_no_stack(rt: HostRuntime) {
    let alloc = rt.alloc();
    let found = row(
        &rt,
        alloc,
        &[&deep(&rt, alloc, 1_000_000, Cell::Var(7))],
        &[],
    );
    assert!(rt; found.same(&found.copy().expect(&rt, "memory")));
    match found.columns() {
        [column] => assert_eq!(rt; column.cells().last().copied(), Some(X)),
        _ => panic!(rt; "another width"),
    }
}
