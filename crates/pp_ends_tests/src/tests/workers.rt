//! The command `run`, whose goals workers search.
use super::words_of;
use pp_gates::Meeting;
use pp_io::{SteadySink, SteadySource};
use pp_run::{Status, propia};
use pp_watch::Watcher;
use pp_worker::Gate;
use std::alloc::Global;
use std::process::Abort;
use std::sync::Wait;
use std::thread::Threads;

/// Four different ones of six: a goal with 360 answers, none of which settles it.
const FOUR: &[u8] = b"six(0).\n\
six(1).\n\
six(2).\n\
six(3).\n\
six(4).\n\
six(5).\n\
four(P,Q,R,T) :- six(P), six(Q), P #\\= Q, six(R), P #\\= R, Q #\\= R, six(T), P #\\= T, Q #\\= T, R #\\= T.\n\
?- four(P,Q,R,T) infers most.\n";

const NARROWED: &[u8] =
    b"P = _0\nQ = _1\nR = _2\nT = _3\n_0 :: [0..5]\n_1 :: [0..5]\n_2 :: [0..5]\n_3 :: [0..5]\nyes\n";

/// What the command `run` with two workers writes, who pass the gate.
fn written_by_two<G: Gate, R: Abort + Threads + Wait + Sync>(
    rt: &R,
    alloc: Global,
    text: &[u8],
    gate: &G,
) -> Vec<u8> {
    let words = words_of(rt, alloc, &["run", "--workers", "2"]);
    let text = Vec::from_slice(alloc, text).expect(rt, "memory");
    let mut source = SteadySource::new(text, 65_536);
    let mut sink = SteadySink::new(alloc, 4_096).expect(rt, "memory");
    let mut watchers: Vec<Box<dyn Watcher>> = Vec::new(alloc);
    let status = propia(
        rt,
        alloc,
        &words,
        &mut source,
        &mut sink,
        gate,
        &mut watchers,
    );
    assert_eq!(rt; status, Status::Yes);
    Vec::from_slice(alloc, sink.bytes()).expect(rt, "memory")
}

#[test]
fn two_workers_share_the_search_of_a_run(rt: HostRuntime) {
    let gate = Meeting::new();
    let written = written_by_two(&rt, rt.alloc(), FOUR, &gate);
    assert_eq!(rt; written.as_slice(), NARROWED);
    assert!(rt; gate.have_met());
}
