//! Works of one level and of many.
use pp_path::Work;
use std::alloc::Global;

/// The deepest level of a work.
fn last(work: &Work) -> Option<(u64, u64)> {
    let level = work.path().last()?;
    Some((level.now, level.end))
}

/// The whole search, gone down into choices of so many children.
fn down(alloc: Global, counts: &[u64]) -> Option<Work> {
    let mut work = Work::root(alloc);
    for count in counts {
        if work.is_spent() || *count == 0 {
            return None;
        }
        work.down(*count).ok()?;
    }
    Some(work)
}

/// What a work of three children is split into.
fn split_of_three(alloc: Global) -> Option<(Work, Work)> {
    let mut work = down(alloc, &[3])?;
    let other = work.split().ok()??;
    Some((work, other))
}

/// Whether a work can be split, whether it goes on then, its deepest level then, and whether it is spent.
fn end_of(work: &mut Work) -> Option<(bool, bool, Option<(u64, u64)>, bool)> {
    let is_split = work.split().ok()?.is_some();
    let goes_on = work.next();
    Some((is_split, goes_on, last(work), work.is_spent()))
}

#[test]
fn a_work_of_three_children_is_split(rt: HostRuntime) {
    let (mut work, mut other) = split_of_three(rt.alloc()).expect(&rt, "two works");
    assert_eq!(rt; [last(&work), last(&other)], [Some((0, 1)), Some((1, 3))]);
    assert_eq!(rt; end_of(&mut work), Some((false, false, None, true)));
    assert_eq!(rt; (other.next(), last(&other)), (true, Some((2, 3))));
    assert_eq!(rt; end_of(&mut other), Some((false, false, None, true)));
}

/// How many levels a work has, the deepest, and how often it goes on until it is spent.
fn gone_through(work: &mut Work) -> Option<(usize, Option<(u64, u64)>, u64)> {
    let (length, last) = (work.path().len(), last(work));
    for count in 0..1_000 {
        if !work.next() {
            return Some((length, last, count));
        }
    }
    None
}

/// Whether a work is the same as its copy, before and after it is split, and what is split off.
fn compared_with_a_copy(work: &mut Work) -> Option<(bool, bool, Work)> {
    let copy = work.copy().ok()?;
    let before = copy.same(work);
    let other = work.split().ok()??;
    Some((before, copy.same(work), other))
}

#[test]
fn a_work_of_forty_levels_is_split_and_gone_through(rt: HostRuntime) {
    let mut work = down(rt.alloc(), &[2; 40]).expect(&rt, "memory");
    let (before, after, mut other) = compared_with_a_copy(&mut work).expect(&rt, "memory");
    assert_eq!(rt; (before, after), (true, false));
    let want = [Some((40, Some((0, 2)), 39)), Some((1, Some((1, 2)), 0))];
    assert_eq!(rt; [gone_through(&mut work), gone_through(&mut other)], want);
}
