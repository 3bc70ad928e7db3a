//! Runs to the fixpoint.
use super::samples::{begun, expect_row, query};
use pp_clause::Clauses;
use pp_fix::{End, fix_alone};
use std::alloc::Global;
use std::process::Abort;

/// In so many turns, over no clauses, the run of the query ends so, after so many turns, with this store.
fn expect_run(rt: &impl Abort, alloc: Global, text: &str, turns: u64, wanted: (End, u64, &str)) {
    let query = query(rt, alloc, text);
    let mut store = begun(rt, alloc, &query);
    let clauses = Clauses::new(alloc);
    let mut watchers = Vec::new(alloc);
    let fixed = fix_alone(
        alloc,
        &clauses,
        &query,
        &mut store,
        1000,
        turns,
        &mut watchers,
    );
    let fixed = fixed.expect(rt, "memory");
    assert_eq!(rt; (fixed.end, fixed.turns), (wanted.0, wanted.1));
    assert!(rt; fixed.unfinished.as_slice().is_empty());
    expect_row(rt, alloc, &store.row().expect(rt, "memory"), wanted.2);
}

#[test]
fn a_query_without_goals_needs_no_turn(rt: HostRuntime) {
    expect_run(&rt, rt.alloc(), "?- X = 1.", 10, (End::Yes, 0, "1"));
    expect_run(&rt, rt.alloc(), "?- X = 1.", 0, (End::Yes, 0, "1"));
}

#[test]
fn without_turns_a_run_stops(rt: HostRuntime) {
    let text = "?- X :: 1..2, p(X) infers most.";
    let store = "_0 | _0 :: [1..2]";
    expect_run(&rt, rt.alloc(), text, 0, (End::Stopped, 0, store));
}
