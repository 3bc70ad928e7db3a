//! Finite domains.
use pp_domain::Domain;
use std::alloc::Global;
use std::process::Abort;

const LOWEST: i64 = -1_000_000_000_000;

const HIGHEST: i64 = 1_000_000_000_000;

/// The domain of these ranges.
fn domain(rt: &impl Abort, alloc: Global, ranges: &[(i8, i8)]) -> Domain {
    let mut all: Option<Domain> = None;
    for (low, high) in ranges {
        let range = range(rt, alloc, *low, *high).expect(rt, "a range");
        all = Some(match all {
            Some(domain) => domain.union(&range).expect(rt, "memory"),
            None => range,
        });
    }
    all.expect(rt, "a range")
}

fn range(rt: &impl Abort, alloc: Global, low: i8, high: i8) -> Option<Domain> {
    Domain::range(alloc, i64::from(low), i64::from(high)).expect(rt, "memory")
}

/// The domain has these intervals; where they are none, there is no domain.
fn expect(rt: &impl Abort, found: Option<Domain>, intervals: &[(i64, i64)]) {
    match found {
        Some(domain) => assert_eq!(rt; domain.intervals(), intervals),
        None => assert_eq!(rt; intervals.len(), 0),
    }
}

#[test]
fn a_range_is_one_interval(rt: HostRuntime) {
    let alloc = rt.alloc();
    expect(&rt, range(&rt, alloc, 1, 3), &[(1, 3)]);
    expect(&rt, range(&rt, alloc, -5, -5), &[(-5, -5)]);
    expect(&rt, range(&rt, alloc, 5, 1), &[]);
}

fn expect_meet(
    rt: &impl Abort,
    alloc: Global,
    one: &[(i8, i8)],
    other: &[(i8, i8)],
    intervals: &[(i64, i64)],
) {
    let meet = domain(rt, alloc, one).meet(&domain(rt, alloc, other));
    expect(rt, meet.expect(rt, "memory"), intervals);
}

#[test]
fn a_meeting_keeps_what_both_hold(rt: HostRuntime) {
    let alloc = rt.alloc();
    expect_meet(&rt, alloc, &[(1, 3)], &[(3, 9)], &[(3, 3)]);
    expect_meet(&rt, alloc, &[(1, 3)], &[(4, 9)], &[]);
    expect_meet(
        &rt,
        alloc,
        &[(1, 3), (5, 9), (12, 20)],
        &[(2, 6), (8, 13), (20, 25)],
        &[(2, 3), (5, 6), (8, 9), (12, 13), (20, 20)],
    );
}

fn expect_union(
    rt: &impl Abort,
    alloc: Global,
    one: &[(i8, i8)],
    other: &[(i8, i8)],
    intervals: &[(i64, i64)],
) {
    let union = domain(rt, alloc, one).union(&domain(rt, alloc, other));
    expect(rt, Some(union.expect(rt, "memory")), intervals);
}

#[test]
fn adjacent_intervals_merge(rt: HostRuntime) {
    let alloc = rt.alloc();
    expect_union(&rt, alloc, &[(1, 2)], &[(3, 5)], &[(1, 5)]);
    expect_union(&rt, alloc, &[(1, 2)], &[(4, 5)], &[(1, 2), (4, 5)]);
    expect_union(
        &rt,
        alloc,
        &[(1, 2), (7, 8), (20, 30)],
        &[(4, 5), (9, 9), (25, 40)],
        &[(1, 2), (4, 5), (7, 9), (20, 40)],
    );
}

fn expect_without(
    rt: &impl Abort,
    alloc: Global,
    one: &[(i8, i8)],
    value: i8,
    intervals: &[(i64, i64)],
) {
    let rest = domain(rt, alloc, one).without(i64::from(value));
    expect(rt, rest.expect(rt, "memory"), intervals);
}

#[test]
fn a_value_taken_out_splits_its_interval(rt: HostRuntime) {
    let alloc = rt.alloc();
    expect_without(&rt, alloc, &[(1, 3)], 2, &[(1, 1), (3, 3)]);
    expect_without(&rt, alloc, &[(7, 7)], 7, &[]);
    expect_without(&rt, alloc, &[(1, 3), (5, 6)], 5, &[(1, 3), (6, 6)]);
    expect_without(&rt, alloc, &[(1, 3), (5, 6)], 4, &[(1, 3), (5, 6)]);
}

#[test]
fn members_are_counted_from_the_smallest(rt: HostRuntime) {
    let alloc = rt.alloc();
    let seven = domain(&rt, alloc, &[(7, 7)]);
    assert_eq!(rt;
        (seven.size(), seven.nth(0), seven.nth(1)),
        (1, Some(7), None)
    );
    let ends = domain(&rt, alloc, &[(1, 1), (3, 3)]);
    assert_eq!(rt; (ends.size(), ends.nth(1), ends.nth(2)), (2, Some(3), None));
}

#[test]
fn all_integers_are_one_interval(rt: HostRuntime) {
    let alloc = rt.alloc();
    let all = Domain::range(alloc, LOWEST, HIGHEST).expect(&rt, "memory");
    let all = all.expect(&rt, "a domain");
    assert_eq!(rt; all.size(), 2_000_000_000_001);
    assert_eq!(rt;
        (all.nth(2_000_000_000_000), all.nth(2_000_000_000_001)),
        (Some(HIGHEST), None)
    );
    expect(
        &rt,
        all.without(0).expect(&rt, "memory"),
        &[(LOWEST, -1), (1, HIGHEST)],
    );
}

#[test]
fn members_are_told(rt: HostRuntime) {
    let alloc = rt.alloc();
    let holed = domain(&rt, alloc, &[(1, 3), (5, 9)]);
    for (value, is_there) in [
        (0, false),
        (1, true),
        (3, true),
        (4, false),
        (9, true),
        (10, false),
    ] {
        assert_eq!(rt; holed.has(value), is_there, "at {value}");
    }
}

#[test]
fn parts_and_copies_are_told(rt: HostRuntime) {
    let alloc = rt.alloc();
    let all = domain(&rt, alloc, &[(1, 9)]);
    let holed = domain(&rt, alloc, &[(1, 3), (5, 9)]);
    assert!(rt; holed.inside(&all) && !all.inside(&holed));
    let copied = holed.copy().expect(&rt, "memory");
    assert!(rt; copied.same(&holed) && copied == holed);
    assert!(rt; !copied.same(&all) && copied != all);
}
