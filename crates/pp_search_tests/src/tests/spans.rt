//! Terms that are lent by their cells, each with the number that its variables are counted from.
ghost use Rattle.pp_unify.specs.States.{IsLonger};

use super::samples::{A, B, F, G, X, Y, Z, range, term};
use super::solving::{all_there, expect_shown, over, variables};
use pp_term::{Cell, Given};
use pp_unify::Bindings;
use std::alloc::Global;
use std::process::Abort;

/// A list's cell, with a head and a tail, and its end.
const CONS: Cell = Cell::Compound(3, 2);

const NIL: Cell = Cell::Atom(4);

const APP: Cell = Cell::Compound(6, 3);

/// The goal, counted from the number beside it, is made equal to a head of so many new variables, or can't be.
fn expect_entered(
    rt: &impl Abort,
    alloc: Global,
    bindings: &mut Bindings,
    goal: (&[Cell], u32),
    head: &[Cell],
    amount: u32,
    wanted: bool,
)
    ensures { IsLonger bindings.old bindings.new }
{
    let one = over(rt, alloc, bindings, goal.0, goal.1);
    let other = term(rt, alloc, head);
    let own = one.cells();
    let new = other.cells();
    if all_there(new, 0, amount as usize) {
        let entered = bindings
            .enter(own, goal.1, new, amount)
            .expect(rt, "memory");
        assert_eq!(rt; entered, wanted);
    } else {
        panic!(rt; "no such variable")
    }
}

/// Two terms are made equal, each counted from the number beside it, or can't be.
fn expect_equal(
    rt: &impl Abort,
    alloc: Global,
    bindings: &mut Bindings,
    left: (&[Cell], u32),
    right: (&[Cell], u32),
    wanted: bool,
)
    ensures { IsLonger bindings.old bindings.new }
{
    let one = over(rt, alloc, bindings, left.0, left.1);
    let other = over(rt, alloc, bindings, right.0, right.1);
    let lefts = one.cells();
    let rights = other.cells();
    let equal = bindings
        .unify_spans(lefts, left.1, rights, right.1)
        .expect(rt, "memory");
    assert_eq!(rt; equal, wanted);
}

/// What the second cell's term is, with the size of its domain where that is finite.
fn seen(
    rt: &impl Abort,
    alloc: Global,
    bindings: &Bindings,
    cells: &[Cell],
    first: u32,
) -> (Given, Option<u64>) {
    let term = over(rt, alloc, bindings, cells, first);
    let lent = term.cells();
    if lent.len() > 1 {
        let size = bindings
            .domain_at(lent, 1, first)
            .map(|domain| domain.size());
        (bindings.value_at(lent, 1, first), size)
    } else {
        panic!(rt; "no second cell")
    }
}

/// The second cell's term becomes an integer, or can't.
fn expect_equated(
    rt: &impl Abort,
    alloc: Global,
    bindings: &mut Bindings,
    cells: &[Cell],
    first: u32,
    value: i8,
    wanted: bool,
) {
    let term = over(rt, alloc, bindings, cells, first);
    let lent = term.cells();
    if lent.len() > 1 {
        let equated = bindings
            .equate_at(lent, 1, first, i64::from(value))
            .expect(rt, "memory");
        assert_eq!(rt; equated, wanted);
    }
}

/// The second cell's term gets a value in the range, or there is none.
fn expect_narrowed(
    rt: &impl Abort,
    alloc: Global,
    bindings: &mut Bindings,
    cells: &[Cell],
    first: u32,
    written: (i8, i8),
    wanted: bool,
) {
    let domain = range(rt, alloc, written.0, written.1);
    let term = over(rt, alloc, bindings, cells, first);
    let lent = term.cells();
    if lent.len() > 1 {
        let some = bindings
            .narrow_at(lent, 1, first, &domain)
            .expect(rt, "memory");
        assert_eq!(rt; some, wanted);
    }
}

#[test]
fn a_head_is_entered(rt: HostRuntime) {
    let alloc = rt.alloc();
    let mut bindings = variables(&rt, alloc, &[None]);
    expect_entered(
        &rt,
        alloc,
        &mut bindings,
        (&[F, X, B], 0),
        &[F, A, X],
        2,
        true,
    );
    assert_eq!(rt; bindings.len(), 3);
    let wanted: [&[Cell]; 3] = [&[A], &[B], &[X]];
    expect_shown(&rt, alloc, &bindings, &[&[X], &[Y], &[Z]], &wanted);
}

#[test]
fn a_list_is_appended_to(rt: HostRuntime) {
    let alloc = rt.alloc();
    let mut bindings = variables(&rt, alloc, &[None, None, None]);
    expect_equal(
        &rt,
        alloc,
        &mut bindings,
        (&[X], 0),
        (&[CONS, A, CONS, B, NIL], 0),
        true,
    );
    let rest = Cell::Var(3);
    let head = [APP, CONS, X, Y, Z, CONS, X, rest];
    expect_entered(
        &rt,
        alloc,
        &mut bindings,
        (&[APP, X, Y, Z], 0),
        &head,
        4,
        true,
    );
    let added = [Cell::Var(3), Cell::Var(4), Cell::Var(5), Cell::Var(6)];
    let columns: [&[Cell]; 5] = [&[Z], &added[0..1], &added[1..2], &added[2..3], &added[3..4]];
    let wanted: [&[Cell]; 5] = [&[CONS, A, X], &[A], &[CONS, B, NIL], &[Y], &[X]];
    expect_shown(&rt, alloc, &bindings, &columns, &wanted);
}

#[test]
fn a_variable_that_is_met_twice_is_checked(rt: HostRuntime) {
    let alloc = rt.alloc();
    let mut bindings = variables(&rt, alloc, &[None]);
    let mark = bindings.mark();
    expect_entered(
        &rt,
        alloc,
        &mut bindings,
        (&[F, X, G, X], 0),
        &[F, X, X],
        1,
        false,
    );
    bindings.undo(mark);
    expect_entered(
        &rt,
        alloc,
        &mut bindings,
        (&[F, A, B], 0),
        &[F, X, X],
        1,
        false,
    );
    bindings.undo(mark);
    expect_entered(
        &rt,
        alloc,
        &mut bindings,
        (&[F, X, G, A], 0),
        &[F, X, X],
        1,
        true,
    );
    expect_shown(&rt, alloc, &bindings, &[&[X]], &[&[G, A]]);
}

#[test]
fn a_goal_is_counted_from_its_first_variable(rt: HostRuntime) {
    let alloc = rt.alloc();
    let mut bindings = variables(&rt, alloc, &[None, None, None]);
    expect_entered(
        &rt,
        alloc,
        &mut bindings,
        (&[F, X, G, Y], 1),
        &[F, B, Y],
        3,
        true,
    );
    let last = Cell::Var(4);
    let wanted: [&[Cell]; 4] = [&[X], &[B], &[Y], &[G, Y]];
    expect_shown(&rt, alloc, &bindings, &[&[X], &[Y], &[Z], &[last]], &wanted);
    assert_eq!(rt; bindings.len(), 6);
}

#[test]
fn names_that_differ_are_no_match(rt: HostRuntime) {
    let alloc = rt.alloc();
    let rows: [(&[Cell], &[Cell]); 4] = [
        (&[F, X, A], &[F, X, B]),
        (&[F, X, G, Y], &[F, A, A]),
        (&[F, X, G, A], &[F, X, G, B]),
        (&[F, X, X], &[F, A, B]),
    ];
    for (goal, head) in rows {
        let mut bindings = variables(&rt, alloc, &[None, None]);
        expect_entered(&rt, alloc, &mut bindings, (goal, 0), head, 1, false);
    }
}

#[test]
fn two_lists_of_cells_are_made_equal(rt: HostRuntime) {
    let alloc = rt.alloc();
    let mut bindings = variables(&rt, alloc, &[None, None, None]);
    expect_equal(
        &rt,
        alloc,
        &mut bindings,
        (&[F, X, A], 1),
        (&[F, B, X], 2),
        true,
    );
    expect_shown(&rt, alloc, &bindings, &[&[Y], &[Z]], &[&[B], &[A]]);
    expect_equal(&rt, alloc, &mut bindings, (&[X], 0), (&[G, X], 0), false);
}

#[test]
fn terms_are_seen_by_their_cells(rt: HostRuntime) {
    let alloc = rt.alloc();
    let bindings = variables(&rt, alloc, &[None, Some((1, 4))]);
    assert_eq!(rt;
        seen(&rt, alloc, &bindings, &[G, X], 0),
        (Given::Free, None)
    );
    assert_eq!(rt;
        seen(&rt, alloc, &bindings, &[G, X], 1),
        (Given::Ranged, Some(4))
    );
    assert_eq!(rt;
        seen(&rt, alloc, &bindings, &[G, A], 0),
        (Given::Other, None)
    );
    assert_eq!(rt;
        seen(&rt, alloc, &bindings, &[G, Cell::Int(7)], 1),
        (Given::Int(7), None)
    );
}

#[test]
fn terms_are_narrowed_by_their_cells(rt: HostRuntime) {
    let alloc = rt.alloc();
    let mut bindings = variables(&rt, alloc, &[None, Some((1, 4))]);
    expect_narrowed(&rt, alloc, &mut bindings, &[G, X], 1, (3, 9), true);
    expect_equated(&rt, alloc, &mut bindings, &[G, X], 1, 3, true);
    expect_narrowed(&rt, alloc, &mut bindings, &[G, A], 0, (3, 9), false);
    expect_equated(&rt, alloc, &mut bindings, &[G, A], 0, 3, false);
    assert_eq!(rt;
        seen(&rt, alloc, &bindings, &[G, X], 1),
        (Given::Int(3), None)
    );
}
