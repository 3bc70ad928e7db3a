//! What the built-ins decide: each row of their table, with values on both sides of where it changes.
use pp_term::Given;
use pp_tests::{Decision, Test, decide};
use std::process::Abort;

const ONE: Given = Given::Int(1);

const TWO: Given = Given::Int(2);

const THREE: Given = Given::Int(3);

const ZERO: Given = Given::Int(0);

/// The greatest integer; the least one is as far below zero.
const BOUND: i64 = 1_000_000_000_000;

const MOST: Given = Given::Int(BOUND);

const NEXT: Given = Given::Int(BOUND - 1);

const LEAST: Given = Given::Int(-BOUND);

const RANGED: Given = Given::Ranged;

const FREE: Given = Given::Free;

const OTHER: Given = Given::Other;

/// Each built-in decides so about these values.
fn expect_decisions(rt: &impl Abort, rows: &[(Test, &[Given], Decision)]) {
    for (test, values, wanted) in rows {
        assert_eq!(rt; decide(*test, values), *wanted);
    }
}

#[test]
fn an_atom_or_a_compound_fails(rt: HostRuntime) {
    expect_decisions(
        &rt,
        &[
            (Test::Less, &[OTHER, FREE], Decision::Fail),
            (Test::AtMost, &[ONE, OTHER], Decision::Fail),
            (Test::Equal, &[OTHER, OTHER], Decision::Fail),
            (Test::Differ, &[RANGED, OTHER], Decision::Fail),
            (Test::Plus, &[FREE, FREE, OTHER], Decision::Fail),
            (Test::Plus, &[ONE, ONE, OTHER], Decision::Fail),
            (Test::Plus, &[OTHER, ONE, TWO], Decision::Fail),
            (Test::Times, &[OTHER, ONE, FREE], Decision::Fail),
            (Test::Times, &[ONE, ONE, OTHER], Decision::Fail),
            (Test::Indomain, &[OTHER], Decision::Fail),
        ],
    );
}

#[test]
fn a_comparison_of_integers_holds_or_fails(rt: HostRuntime) {
    expect_decisions(
        &rt,
        &[
            (Test::Less, &[ONE, TWO], Decision::Hold),
            (Test::Less, &[ONE, ONE], Decision::Fail),
            (Test::Less, &[TWO, ONE], Decision::Fail),
            (Test::AtMost, &[ONE, TWO], Decision::Hold),
            (Test::AtMost, &[ONE, ONE], Decision::Hold),
            (Test::AtMost, &[TWO, ONE], Decision::Fail),
            (Test::Equal, &[TWO, TWO], Decision::Hold),
            (Test::Equal, &[ONE, TWO], Decision::Fail),
            (Test::Differ, &[ONE, TWO], Decision::Hold),
            (Test::Differ, &[ONE, ONE], Decision::Fail),
        ],
    );
}

#[test]
fn a_comparison_waits_for_integers(rt: HostRuntime) {
    let pairs = [
        [ONE, RANGED],
        [ONE, FREE],
        [RANGED, ONE],
        [FREE, ONE],
        [RANGED, RANGED],
        [RANGED, FREE],
        [FREE, RANGED],
        [FREE, FREE],
    ];
    for test in [Test::Less, Test::AtMost, Test::Equal, Test::Differ] {
        for pair in &pairs {
            assert_eq!(rt; decide(test, pair), Decision::Wait);
        }
    }
}

#[test]
fn plus_computes_the_one_that_is_unknown(rt: HostRuntime) {
    expect_decisions(
        &rt,
        &[
            (Test::Plus, &[ONE, TWO, THREE], Decision::Hold),
            (Test::Plus, &[ONE, ONE, THREE], Decision::Fail),
            (Test::Plus, &[ONE, TWO, FREE], Decision::Bind(2, 3)),
            (Test::Plus, &[ONE, TWO, RANGED], Decision::Bind(2, 3)),
            (Test::Plus, &[ONE, FREE, THREE], Decision::Bind(1, 2)),
            (Test::Plus, &[ONE, RANGED, THREE], Decision::Bind(1, 2)),
            (Test::Plus, &[FREE, TWO, ONE], Decision::Bind(0, -1)),
            (Test::Plus, &[RANGED, TWO, ONE], Decision::Bind(0, -1)),
        ],
    );
}

#[test]
fn plus_fails_beyond_the_integers(rt: HostRuntime) {
    expect_decisions(
        &rt,
        &[
            (Test::Plus, &[NEXT, ONE, FREE], Decision::Bind(2, BOUND)),
            (Test::Plus, &[MOST, ONE, FREE], Decision::Fail),
            (Test::Plus, &[LEAST, RANGED, ZERO], Decision::Bind(1, BOUND)),
            (Test::Plus, &[LEAST, RANGED, ONE], Decision::Fail),
            (Test::Plus, &[FREE, ZERO, LEAST], Decision::Bind(0, -BOUND)),
            (Test::Plus, &[FREE, ONE, LEAST], Decision::Fail),
            (Test::Plus, &[MOST, ONE, MOST], Decision::Fail),
        ],
    );
}

#[test]
fn plus_waits_for_two_integers(rt: HostRuntime) {
    for values in [
        [ONE, FREE, FREE],
        [RANGED, ONE, FREE],
        [FREE, RANGED, ONE],
        [FREE, FREE, FREE],
        [RANGED, RANGED, RANGED],
    ] {
        assert_eq!(rt; decide(Test::Plus, &values), Decision::Wait);
    }
}

#[test]
fn times_computes_the_third_alone(rt: HostRuntime) {
    expect_decisions(
        &rt,
        &[
            (Test::Times, &[ONE, TWO, TWO], Decision::Hold),
            (Test::Times, &[ONE, TWO, THREE], Decision::Fail),
            (Test::Times, &[TWO, THREE, RANGED], Decision::Bind(2, 6)),
            (Test::Times, &[TWO, THREE, FREE], Decision::Bind(2, 6)),
            (Test::Times, &[TWO, FREE, THREE], Decision::Wait),
            (Test::Times, &[ZERO, RANGED, THREE], Decision::Wait),
            (Test::Times, &[FREE, TWO, ONE], Decision::Wait),
            (Test::Times, &[RANGED, FREE, FREE], Decision::Wait),
        ],
    );
}

#[test]
fn times_fails_beyond_the_integers(rt: HostRuntime) {
    expect_decisions(
        &rt,
        &[
            (Test::Times, &[MOST, ONE, FREE], Decision::Bind(2, BOUND)),
            (Test::Times, &[MOST, TWO, FREE], Decision::Fail),
            (Test::Times, &[MOST, TWO, ONE], Decision::Fail),
            (
                Test::Times,
                &[LEAST, ONE, RANGED],
                Decision::Bind(2, -BOUND),
            ),
            (Test::Times, &[LEAST, TWO, RANGED], Decision::Fail),
            (Test::Times, &[MOST, MOST, FREE], Decision::Fail),
        ],
    );
}

#[test]
fn indomain_splits_a_finite_domain(rt: HostRuntime) {
    expect_decisions(
        &rt,
        &[
            (Test::Indomain, &[ONE], Decision::Hold),
            (Test::Indomain, &[RANGED], Decision::Split),
            (Test::Indomain, &[FREE], Decision::Wait),
        ],
    );
}
