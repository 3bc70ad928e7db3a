//! Joins of small rows, of a deep term, and of random rows in two orders.
ghost use Rattle.std.specs.Prelude.{◌<◌};

use super::samples::{A, F, G, ONE, TWO, X, Y, deep, row};
use pp_lgg::join;
use pp_term::{Cell, Row};
use std::alloc::Global;
use std::process::Abort;

/// A row that is written: its columns, and the domains of its variables from 0 on.
type Written<'a> = (&'a [&'a [Cell]], &'a [Option<(i8, i8)>]);

/// The join of two rows, which have as many columns.
fn joined(rt: &impl Abort, alloc: Global, one: &Row, other: &Row) -> Row {
    if one.columns().len() == other.columns().len() {
        join(alloc, one, other).expect(rt, "memory")
    } else {
        panic!(rt; "another width")
    }
}

fn expect(rt: &impl Abort, alloc: Global, one: Written, other: Written, wanted: Written) {
    let found = joined(
        rt,
        alloc,
        &row(rt, alloc, one.0, one.1),
        &row(rt, alloc, other.0, other.1),
    );
    assert!(rt; found.same(&row(rt, alloc, wanted.0, wanted.1)));
}

#[test]
fn equal_pairs_share_a_variable(rt: HostRuntime) {
    let alloc = rt.alloc();
    let some = Some((1, 2));
    let shared: Written = (&[&[X], &[X]], &[some]);
    let apart: Written = (&[&[X], &[Y]], &[some, some]);
    expect(
        &rt,
        alloc,
        (&[&[ONE], &[ONE]], &[]),
        (&[&[TWO], &[TWO]], &[]),
        shared,
    );
    expect(&rt, alloc, shared, (&[&[ONE], &[TWO]], &[]), apart);
    expect(&rt, alloc, apart, apart, apart);
}

#[test]
fn compounds_are_joined_argument_by_argument(rt: HostRuntime) {
    let alloc = rt.alloc();
    let shared: Written = (&[&[F, X, X]], &[Some((1, 2))]);
    expect(
        &rt,
        alloc,
        (&[&[F, ONE, ONE]], &[]),
        (&[&[F, TWO, TWO]], &[]),
        shared,
    );
    expect(
        &rt,
        alloc,
        (&[&[G, A]], &[]),
        (&[&[F, A, A]], &[]),
        (&[&[X]], &[]),
    );
}

#[test]
fn domains_are_united(rt: HostRuntime) {
    let alloc = rt.alloc();
    let any: Written = (&[&[X]], &[None]);
    let five: Written = (&[&[Cell::Int(5)]], &[]);
    expect(&rt, alloc, five, (&[&[A]], &[]), any);
    expect(&rt, alloc, five, any, any);
    expect(
        &rt,
        alloc,
        five,
        (&[&[X]], &[Some((1, 4))]),
        (&[&[X]], &[Some((1, 5))]),
    );
    expect(
        &rt,
        alloc,
        (&[&[X]], &[Some((1, 3))]),
        (&[&[X]], &[Some((3, 9))]),
        (&[&[X]], &[Some((1, 9))]),
    );
}

#[test]
fn a_gap_stays_between_domains(rt: HostRuntime) {
    let alloc = rt.alloc();
    let five = row(&rt, alloc, &[&[Cell::Int(5)]], &[]);
    let found = joined(
        &rt,
        alloc,
        &five,
        &row(&rt, alloc, &[&[X]], &[Some((1, 3))]),
    );
    match found.domains() {
        [Some(domain)] => assert_eq!(rt; domain.intervals(), [(1, 3), (5, 5)].as_slice()),
        _ => panic!(rt; "no domain"),
    }
}

#[test]
fn a_deep_term_takes_no_stack(rt: HostRuntime) {
    let alloc = rt.alloc();
    let one = row(&rt, alloc, &[&deep(&rt, alloc, 1_000_000, ONE)], &[]);
    let two = row(&rt, alloc, &[&deep(&rt, alloc, 1_000_000, TWO)], &[]);
    let common = row(
        &rt,
        alloc,
        &[&deep(&rt, alloc, 1_000_000, X)],
        &[Some((1, 2))],
    );
    assert!(rt; joined(&rt, alloc, &one, &two).same(&common));
}

/// The next number of a linear congruential generator, below `bound`.
fn next(state: &mut u64, bound: u64) -> u64
    requires { 0 < bound }
{
    *state = state
        .wrapping_mul(6_364_136_223_846_793_005)
        .wrapping_add(1_442_695_040_888_963_407);
    (*state >> 33) % bound
}

fn random_leaf(state: &mut u64) -> Cell {
    match next(state, 5) {
        0 => ONE,
        1 => TWO,
        2 => A,
        3 => X,
        _ => Y,
    }
}

/// One leaf, or a compound of two.
fn random_cells(rt: &impl Abort, alloc: Global, state: &mut u64) -> Vec<Cell> {
    let mut cells = Vec::new(alloc);
    if next(state, 3) == 0 {
        cells.push(F).expect(rt, "memory");
        cells.push(random_leaf(state)).expect(rt, "memory");
    }
    cells.push(random_leaf(state)).expect(rt, "memory");
    cells
}

fn random_range(state: &mut u64) -> Option<(i8, i8)> {
    match next(state, 3) {
        0 => None,
        1 => Some((1, 2)),
        _ => Some((1, 3)),
    }
}

fn random_row(rt: &impl Abort, alloc: Global, state: &mut u64) -> Row {
    let first = random_cells(rt, alloc, state);
    let second = random_cells(rt, alloc, state);
    let third = random_cells(rt, alloc, state);
    let ranges = [random_range(state), random_range(state)];
    row(rt, alloc, &[&first, &second, &third], &ranges)
}

fn random_rows(rt: &impl Abort, alloc: Global, state: &mut u64, count: u64) -> Vec<Row> {
    let mut rows = Vec::new(alloc);
    for _ in 0..count {
        rows.push(random_row(rt, alloc, state)).expect(rt, "memory");
    }
    rows
}

/// The join of the rows from the first to the last.
fn forwards(rt: &impl Abort, alloc: Global, rows: &[Row]) -> Option<Row> {
    let mut all = rows.first()?.copy().expect(rt, "memory");
    for row in rows {
        all = joined(rt, alloc, &all, row);
    }
    Some(all)
}

/// The join of the rows from the last to the first.
fn backwards(rt: &impl Abort, alloc: Global, rows: &[Row]) -> Option<Row> {
    let mut all = rows.last()?.copy().expect(rt, "memory");
    for row in rows.iter().rev() {
        all = joined(rt, alloc, row, &all);
    }
    Some(all)
}

/// Whether both orders give one row.
fn agree(rt: &impl Abort, alloc: Global, rows: &[Row]) -> bool {
    match (forwards(rt, alloc, rows), backwards(rt, alloc, rows)) {
        (Some(one), Some(other)) => one.same(&other),
        _ => false,
    }
}

#[test]
fn random_rows_join_in_either_order(rt: HostRuntime) {
    let alloc = rt.alloc();
    let mut state = 1;
    for round in 0..1000 {
        let rows = random_rows(&rt, alloc, &mut state, 2 + round % 4);
        assert!(rt; agree(&rt, alloc, &rows), "at {round}");
    }
}
