//! What is done with goals, and doing it.
use super::goals::{first_of, is_lent, variables};
use pp_clause::{GoalAt, Kind};
use pp_domain::Domain;
use pp_goal::{Act, act_on, perform, split_count, split_value};
use pp_row::{Cell, Given};
use pp_tests::Test;
use pp_unify::Bindings;
use std::alloc::Global;
use std::process::Abort;

const A: Cell = Cell::Atom(0);

const X: Cell = Cell::Var(0);

const Y: Cell = Cell::Var(1);

/// What is done with the goal, and whether that was done.
fn acted(rt: &impl Abort, bindings: &mut Bindings, goal: &GoalAt<'_>) -> (Act, bool) {
    if !is_lent(bindings, goal) {
        panic!(rt; "no such goal")
    }
    let act = act_on(bindings, goal, 0);
    let done = perform(bindings, goal, 0, act).expect(rt, "memory");
    (act, done)
}

/// The act on a built-in of these arguments.
fn on_test(rt: &impl Abort, bindings: &mut Bindings, test: Test, arguments: &[Cell]) -> Act {
    let goal = GoalAt {
        kind: Kind::Test(test),
        arguments,
    };
    acted(rt, bindings, &goal).0
}

#[test]
fn a_sum_binds_the_argument_that_is_not_known(rt: HostRuntime) {
    let alloc = rt.alloc();
    let mut bindings = variables(&rt, alloc, &[None]);
    let cells = [X, Cell::Int(3), Cell::Int(10)];
    let goal = GoalAt {
        kind: Kind::Test(Test::Plus),
        arguments: &cells,
    };
    assert_eq!(rt; acted(&rt, &mut bindings, &goal), (Act::Bind(0, 7), true));
    assert_eq!(rt; first_of(&rt, &bindings, &goal), Given::Int(7));
    assert_eq!(rt; acted(&rt, &mut bindings, &goal), (Act::Hold, true));
}

#[test]
fn built_ins_wait_fail_and_hold(rt: HostRuntime) {
    let alloc = rt.alloc();
    let mut bindings = variables(&rt, alloc, &[None, Some((1, 3))]);
    for (left, right, wanted) in [
        (X, Y, Act::Wait),
        (X, A, Act::Fail),
        (Cell::Int(1), Cell::Int(2), Act::Hold),
        (Cell::Int(2), Cell::Int(2), Act::Fail),
    ] {
        assert_eq!(rt;
            on_test(&rt, &mut bindings, Test::Less, &[left, right]),
            wanted
        );
    }
}

#[test]
fn a_call_names_its_predicate(rt: HostRuntime) {
    let mut bindings = variables(&rt, rt.alloc(), &[]);
    let goal = GoalAt {
        kind: Kind::User(5),
        arguments: &[A],
    };
    assert_eq!(rt; acted(&rt, &mut bindings, &goal), (Act::Call(5), true));
}

#[test]
fn equations_and_memberships_are_solved(rt: HostRuntime) {
    let alloc = rt.alloc();
    let mut bindings = variables(&rt, alloc, &[None]);
    let domain = Domain::range(alloc, 2, 5).expect(&rt, "memory");
    let within = GoalAt {
        kind: Kind::Member(domain.as_ref()),
        arguments: &[X],
    };
    assert_eq!(rt; acted(&rt, &mut bindings, &within), (Act::Narrow, true));
    assert_eq!(rt; first_of(&rt, &bindings, &within), Given::Ranged);
    for (value, holds) in [(6, false), (5, true)] {
        let mut bindings = variables(&rt, alloc, &[Some((2, 5))]);
        let cells = [X, Cell::Int(value)];
        let equal = GoalAt {
            kind: Kind::Equate,
            arguments: &cells,
        };
        assert_eq!(rt; acted(&rt, &mut bindings, &equal), (Act::Equate, holds));
    }
}

#[test]
fn the_empty_set_has_no_member(rt: HostRuntime) {
    let mut bindings = variables(&rt, rt.alloc(), &[None]);
    let goal = GoalAt {
        kind: Kind::Member(None),
        arguments: &[X],
    };
    assert_eq!(rt; acted(&rt, &mut bindings, &goal), (Act::Narrow, false));
}

/// The values of a split, as many as there are below five.
fn values(rt: &impl Abort, alloc: Global, bindings: &Bindings, goal: &GoalAt<'_>) -> Vec<i64> {
    let mut values = Vec::new(alloc);
    if !is_lent(bindings, goal) || !matches!(goal.kind, Kind::Test(Test::Indomain)) {
        panic!(rt; "no such goal")
    }
    for place in 0..5 {
        if place < split_count(bindings, goal, 0) {
            let value = split_value(bindings, goal, 0, place);
            values.push(value).expect(rt, "memory");
        }
    }
    values
}

#[test]
fn a_split_has_each_value_once_ascending(rt: HostRuntime) {
    let alloc = rt.alloc();
    let mut bindings = variables(&rt, alloc, &[Some((1, 3))]);
    let goal = GoalAt {
        kind: Kind::Test(Test::Indomain),
        arguments: &[X],
    };
    assert_eq!(rt; acted(&rt, &mut bindings, &goal), (Act::Split, true));
    let values = values(&rt, alloc, &bindings, &goal);
    assert_eq!(rt; values.as_slice(), [1, 2, 3].as_slice());
}
