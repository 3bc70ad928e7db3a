//! Writing all of an answer.
ghost use Rattle.std.specs.Prelude.{None};

use super::only;
use pp_io::{Failed, MemorySink, Sink, SteadySink, WriteError, write_all};
use std::alloc::Global;
use std::process::Abort;

#[test]
fn a_failing_write_leaves_what_was_taken(rt: HostRuntime) {
    let mut sink = MemorySink::new(rt.alloc(), 5, only(&rt, rt.alloc(), 2));
    assert_eq!(rt;
        write_all(&mut sink, b"X = 1\nyes\n"),
        Err(WriteError::Fault)
    );
    assert_eq!(rt; sink.bytes(), b"X = 1".as_slice());
    assert_eq!(rt; write_all(&mut sink, b"\nyes\n"), Ok(()));
    assert_eq!(rt; sink.bytes(), b"X = 1\nyes\n".as_slice());
}

/// What a sink of room 4 tells after these writes.
fn expect_steady(rt: &impl Abort, alloc: Global, writes: &[&[u8]], wanted: &[u8]) {
    let mut sink = SteadySink::new(alloc, 4).expect(rt, "memory");
    for bytes in writes {
        assert_eq!(rt; write_all(&mut sink, bytes), Ok(()));
    }
    assert_eq!(rt; sink.bytes(), wanted);
}

#[test]
fn a_steady_sink_tells_while_all_fits(rt: HostRuntime) {
    let alloc = rt.alloc();
    expect_steady(&rt, alloc, &[b"abcd"], b"abcd");
    expect_steady(&rt, alloc, &[b"ab", b"", b"cd"], b"abcd");
    expect_steady(&rt, alloc, &[b"abcd", b"e"], b"");
    expect_steady(&rt, alloc, &[b"abcde"], b"");
}

/// Takes at most two bytes a call, and keeps how many it was offered.
#[derive(Drop)]
struct Offers {
    lengths: [usize; 4],
    calls: usize,
}

impl Sink for Offers {
    ghost taken = { λ _. None };

    ghost faults = { λ _. 0 };

    fn write(&mut self, bytes: &[u8]) -> Result<usize, Failed> {
        if self.calls < 4 {
            self.lengths[self.calls] = bytes.len();
            self.calls += 1;
        }
        Ok(bytes.len().min(2))
    }
}

#[test]
fn each_write_is_handed_the_whole_rest(rt: HostRuntime) {
    let mut sink = Offers {
        lengths: [0; 4],
        calls: 0,
    };
    assert_eq!(rt; write_all(&mut sink, b""), Ok(()));
    assert_eq!(rt; sink.calls, 0);
    assert_eq!(rt; write_all(&mut sink, b"abcde"), Ok(()));
    assert_eq!(rt; sink.lengths, [5, 3, 1, 0]);
}

/// Takes no byte, and counts each call as a fault.
#[derive(Drop)]
struct Stubborn {
    faults: u64,
}

impl Sink for Stubborn {
    ghost taken = { λ _. None };

    ghost faults = { λ s. s.faults };

    fn write(&mut self, _bytes: &[u8]) -> Result<usize, Failed> {
        self.faults = self.faults.saturating_add(1);
        Ok(0)
    }
}

#[test]
fn taking_nothing_is_a_fault(rt: HostRuntime) {
    let mut sink = Stubborn { faults: 0 };
    assert_eq!(rt; write_all(&mut sink, b"a"), Err(WriteError::Fault));
    assert_eq!(rt; sink.faults, 1);
}
