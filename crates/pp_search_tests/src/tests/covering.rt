//! Rows that cover what variables are bound to.
use super::samples::{A, B, F, G, X, Y, Z, row};
use super::solving::{expect_covered, expect_unified, variables};
use pp_term::Cell;
use pp_unify::Bindings;
use std::alloc::Global;
use std::process::Abort;

/// The row of these columns, with these domains, covers the first two variables, or doesn't.
fn expect_pair(
    rt: &impl Abort,
    alloc: Global,
    bindings: &mut Bindings,
    written: &[&[Cell]],
    ranges: &[Option<(i8, i8)>],
    wanted: bool,
) {
    let by = row(rt, alloc, written, ranges);
    expect_covered(rt, alloc, bindings, &[&[X], &[Y]], &by, wanted);
}

#[test]
fn a_row_covers_what_it_is_more_general_than(rt: HostRuntime) {
    let alloc = rt.alloc();
    let mut bindings = variables(&rt, alloc, &[None, None, None]);
    expect_unified(&rt, alloc, &mut bindings, &[X], &[F, Z, B], true);
    expect_unified(&rt, alloc, &mut bindings, &[Z], &[G, A], true);
    expect_pair(&rt, alloc, &mut bindings, &[&[X], &[Y]], &[], true);
    expect_pair(&rt, alloc, &mut bindings, &[&[F, X, Y], &[Z]], &[], true);
    expect_pair(&rt, alloc, &mut bindings, &[&[F, G, A, B], &[X]], &[], true);
    expect_pair(
        &rt,
        alloc,
        &mut bindings,
        &[&[F, G, B, B], &[X]],
        &[],
        false,
    );
    expect_pair(&rt, alloc, &mut bindings, &[&[F, X, A], &[Y]], &[], false);
    expect_pair(&rt, alloc, &mut bindings, &[&[X], &[A]], &[], false);
    expect_pair(&rt, alloc, &mut bindings, &[&[X]], &[], false);
}

#[test]
fn a_variable_that_comes_again_stands_for_one_term(rt: HostRuntime) {
    let alloc = rt.alloc();
    let mut bindings = variables(&rt, alloc, &[None, None, None]);
    expect_pair(&rt, alloc, &mut bindings, &[&[X], &[X]], &[], false);
    expect_unified(&rt, alloc, &mut bindings, &[X], &[F, Z, A], true);
    expect_unified(&rt, alloc, &mut bindings, &[Y], &[F, Z, A], true);
    expect_pair(&rt, alloc, &mut bindings, &[&[X], &[X]], &[], true);
    expect_unified(&rt, alloc, &mut bindings, &[Z], &[G, B], true);
    expect_pair(&rt, alloc, &mut bindings, &[&[X], &[X]], &[], true);
    expect_pair(
        &rt,
        alloc,
        &mut bindings,
        &[&[F, X, Y], &[F, X, Y]],
        &[],
        true,
    );
    expect_pair(
        &rt,
        alloc,
        &mut bindings,
        &[&[F, X, Y], &[F, Y, X]],
        &[],
        false,
    );
}

#[test]
fn a_domain_covers_what_lies_in_it(rt: HostRuntime) {
    let alloc = rt.alloc();
    let mut bindings = variables(&rt, alloc, &[Some((2, 4)), None]);
    expect_unified(&rt, alloc, &mut bindings, &[Y], &[Cell::Int(7)], true);
    let all = &[&[X] as &[Cell], &[Y]];
    expect_pair(
        &rt,
        alloc,
        &mut bindings,
        all,
        &[Some((1, 5)), Some((6, 9))],
        true,
    );
    expect_pair(&rt, alloc, &mut bindings, all, &[Some((2, 4)), None], true);
    expect_pair(&rt, alloc, &mut bindings, all, &[Some((3, 5)), None], false);
    expect_pair(&rt, alloc, &mut bindings, all, &[None, Some((1, 6))], false);
    let mut free = variables(&rt, alloc, &[None, None]);
    expect_pair(&rt, alloc, &mut free, all, &[Some((1, 5)), None], false);
}
