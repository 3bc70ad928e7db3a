//! The top call over ends in memory, some of which fail.
ghost use Rattle.std.specs.Prelude.{◌≤◌, Some, []};

use super::{only, words_of};
use pp_io::{Failed, MemorySink, MemorySource, Sink, Source, SteadySink, SteadySource};
use pp_run::{Status, alone, propia};
use pp_watch::Watcher;
use pp_worker::OpenGate;
use std::alloc::Global;
use std::process::Abort;

const EQUAL: &str = "eq(a,a). eq(b,b). ?- eq(X,Y) infers most.";

const ANSWER: &[u8] = b"X = _0\nY = _0\nyes\n";

/// The status of the command `alone`.
fn status_of(
    rt: &impl Abort,
    alloc: Global,
    source: &mut impl Source,
    sink: &mut impl Sink,
) -> Status {
    let words = words_of(rt, alloc, &["alone"]);
    let mut watchers: Vec<Box<dyn Watcher>> = Vec::new(alloc);
    alone(alloc, &words, source, sink, &mut watchers)
}

fn text(rt: &impl Abort, alloc: Global) -> Vec<u8> {
    Vec::from_slice(alloc, EQUAL.as_bytes()).expect(rt, "memory")
}

#[test]
fn memory_is_found(rt: HostRuntime) {
    let alloc = rt.alloc();
    let mut source = SteadySource::new(text(&rt, alloc), 65_536);
    let mut sink = SteadySink::new(alloc, 4_096).expect(&rt, "memory");
    let status = status_of(&rt, alloc, &mut source, &mut sink);
    assert_eq!(rt; status, Status::Yes);
    assert_eq!(rt; sink.bytes(), ANSWER);
}

/// The run with a source in pieces of `source.0` bytes, whose call `source.1` fails, and a sink likewise.
fn expect(
    rt: &impl Abort,
    alloc: Global,
    source: (usize, u64),
    sink: (usize, u64),
    wanted: (Status, &[u8]),
)
    requires source { 1 ≤ source.0 }
    requires sink { 1 ≤ sink.0 }
{
    let mut source = MemorySource::new(text(rt, alloc), source.0, only(rt, alloc, source.1));
    let mut sink = MemorySink::new(alloc, sink.0, only(rt, alloc, sink.1));
    let status = status_of(rt, alloc, &mut source, &mut sink);
    assert_eq!(rt; status, wanted.0);
    assert_eq!(rt; sink.bytes(), wanted.1);
}

#[test]
fn each_failing_read_is_a_read_fault(rt: HostRuntime) {
    // Pieces of 9 bytes: five reads of the text and one that shows the end.
    for call in 1..7 {
        expect(
            &rt,
            rt.alloc(),
            (9, call),
            (4_096, 0),
            (Status::ReadFault, b""),
        );
    }
    expect(&rt, rt.alloc(), (9, 7), (4_096, 0), (Status::Yes, ANSWER));
}

#[test]
fn each_failing_write_is_a_write_fault_behind_the_writes_before(rt: HostRuntime) {
    for (call, taken) in [(1, 0), (2, 3), (3, 6), (4, 9), (5, 12), (6, 15)] {
        assert!(rt; taken <= ANSWER.len());
        let wanted = (Status::WriteFault, &ANSWER[..taken]);
        expect(&rt, rt.alloc(), (4_096, 0), (3, call), wanted);
    }
    expect(&rt, rt.alloc(), (4_096, 0), (3, 7), (Status::Yes, ANSWER));
}

#[test]
fn make_leaves_the_source(rt: HostRuntime) {
    let alloc = rt.alloc();
    let words = words_of(&rt, alloc, &["make", "1"]);
    let mut source = MemorySource::new(text(&rt, alloc), 4_096, only(&rt, alloc, 1));
    let mut sink = SteadySink::new(alloc, 4_096).expect(&rt, "memory");
    let mut watchers: Vec<Box<dyn Watcher>> = Vec::new(alloc);
    let status = propia(
        &rt,
        alloc,
        &words,
        &mut source,
        &mut sink,
        &OpenGate,
        &mut watchers,
    );
    assert_eq!(rt; status, Status::Yes);
    assert_eq!(rt;
        sink.bytes(),
        b"verdict yes\nturns 4\nbound 5\nsizes 24\n".as_slice()
    );
}

/// A sink that takes nothing and counts that as a fault.
#[derive(Drop)]
struct Full {
    faults: u64,
}

impl Sink for Full {
    ghost taken = { λ _. Some [] };

    ghost faults = { λ s. s.faults };

    fn write(&mut self, _bytes: &[u8]) -> Result<usize, Failed> {
        self.faults = self.faults.saturating_add(1);
        Ok(0)
    }
}

#[test]
fn a_sink_that_takes_nothing_is_a_write_fault(rt: HostRuntime) {
    let mut source = SteadySource::new(text(&rt, rt.alloc()), 4_096);
    let mut sink = Full { faults: 0 };
    let status = status_of(&rt, rt.alloc(), &mut source, &mut sink);
    assert_eq!(rt; status, Status::WriteFault);
    assert_eq!(rt; sink.faults, 1);
}
