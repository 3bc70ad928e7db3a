//! Workers who are held at a gate.
use super::verdicts::verdict_of;
use pp_gates::{Holding, Meeting};
use pp_term::Mode;
use pp_worker::Point;

/// Four different ones of six: a goal with 360 answers, none of which settles it.
const FOUR: &[u8] = b"six(0). six(1). six(2). six(3). six(4). six(5).\n\
four(P,Q,R,T) :- six(P), six(Q), P #\\= Q, six(R), P #\\= R, Q #\\= R, six(T), P #\\= T, Q #\\= T, R #\\= T.\n\
?- four(P,Q,R,T) infers most.\n";

const NARROWED: &[u8] = b"_0, _1, _2, _3 | _0 :: [0..5], _1 :: [0..5], _2 :: [0..5], _3 :: [0..5]";

#[test]
fn two_workers_share_a_search(rt: HostRuntime) {
    let gate = Meeting::new();
    let found = verdict_of(&rt, rt.alloc(), FOUR, Mode::Most, Some(2), &gate);
    assert_eq!(rt; found.as_slice(), NARROWED);
    assert!(rt; gate.have_met());
}

#[test]
fn a_worker_that_is_held_changes_no_verdict(rt: HostRuntime) {
    for (worker, point) in [
        (0, Point::Taken),
        (0, Point::Reported),
        (0, Point::Offered),
        (0, Point::Idle),
        (1, Point::Taken),
        (1, Point::Reported),
        (1, Point::Offered),
        (1, Point::Idle),
    ] {
        let gate = Holding::new(worker, point);
        let found = verdict_of(&rt, rt.alloc(), FOUR, Mode::Most, Some(2), &gate);
        assert_eq!(rt; found.as_slice(), NARROWED, "{worker}, {point:?}");
    }
}
