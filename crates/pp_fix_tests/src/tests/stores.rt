//! Stores, faces and rows that are applied.
ghost use Rattle.pp_store.specs.Kept.{IsStoreOf};

use super::samples::{begun, expect_row, query};
use pp_store::{GoalIndex, Store};
use pp_term::Row;
use std::alloc::Global;
use std::process::Abort;

const CHAIN: &str = "p(1,2). p(2,3). ?- p(X,Y) infers most, p(Y,Z) infers most.";

/// The query's store begins with this row.
fn expect_begun(rt: &impl Abort, alloc: Global, text: &str, wanted: &str) {
    let query = query(rt, alloc, text);
    let row = begun(rt, alloc, &query).row().expect(rt, "memory");
    expect_row(rt, alloc, &row, wanted);
}

#[test]
fn a_store_begins_with_what_is_solved(rt: HostRuntime) {
    let alloc = rt.alloc();
    expect_begun(&rt, alloc, CHAIN, "_0, _1, _2");
    expect_begun(&rt, alloc, "?- X = Y, Y :: 3.", "3, 3");
    expect_begun(
        &rt,
        alloc,
        "?- X :: 1..3, p(X) infers most, Y = X.",
        "_0, _0 | _0 :: [1..3]",
    );
}

#[test]
fn a_query_without_a_solution_has_no_store(rt: HostRuntime) {
    let alloc = rt.alloc();
    for text in ["?- X :: 5..1.", "?- X = f(X).", "?- X = a, X :: 1..5."] {
        let query = query(&rt, alloc, text);
        let store = Store::begin(alloc, &query).expect(&rt, "memory");
        assert!(rt; store.is_none());
    }
}

/// The goal of this number has this face.
fn expect_face(
    rt: &impl Abort,
    alloc: Global,
    store: &Store,
    goals: &GoalIndex,
    goal: u32,
    wanted: &str,
)
    requires of_query { IsStoreOf goals.now store.now }
{
    assert!(rt; 1 <= goal && goal <= goals.count());
    let face = store.face(goals, goal).expect(rt, "memory");
    expect_row(rt, alloc, &face, wanted);
}

/// Applying the row to the goal of this number gives this store, and changes the faces of these goals.
fn expect_applied(
    rt: &impl Abort,
    alloc: Global,
    store: &mut Store,
    goals: &GoalIndex,
    goal: u32,
    given: &Row,
    wanted: (&str, &[u32]),
)
    requires of_query { IsStoreOf goals.now store.old }
{
    assert!(rt; 1 <= goal && goal <= goals.count());
    let face = store.face(goals, goal).expect(rt, "memory");
    let columns = given.columns();
    let domains = face.domains();
    assert!(rt; columns.len() == domains.len());
    let changed = store.apply(goals, goal, given).expect(rt, "memory");
    expect_row(rt, alloc, &store.row().expect(rt, "memory"), wanted.0);
    assert_eq!(rt; changed.as_slice(), wanted.1);
}

#[test]
fn a_row_is_applied_to_a_goal(rt: HostRuntime) {
    let alloc = rt.alloc();
    let chain = query(&rt, alloc, CHAIN);
    let mut store = begun(&rt, alloc, &chain);
    let goals = GoalIndex::new(alloc, &chain).expect(&rt, "memory");
    expect_face(&rt, alloc, &store, &goals, 2, "_0, _1");
    let ranges = query(&rt, alloc, "?- A :: 1..2, B :: 2..3.");
    let given = begun(&rt, alloc, &ranges).row().expect(&rt, "memory");
    let wanted = "_0, _1, _2 | _0 :: [1..2], _1 :: [2..3]";
    expect_applied(&rt, alloc, &mut store, &goals, 1, &given, (wanted, &[1, 2]));
}
