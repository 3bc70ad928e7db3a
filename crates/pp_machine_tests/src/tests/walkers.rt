//! A walker that goes where works lead.
ghost use Rattle.std.specs.Prelude.{◌≢◌, None};

use super::machines::{is_at, machine_of, text_of};
use pp_explore::Walker;
use pp_path::Work;
use pp_resolve::Machine;
use pp_term::Names;
use std::alloc::Global;
use std::process::Abort;

/// A work of one level, this child of so many, and the text of the row to which it leads; None where it fails.
#[derive(Clone, Copy)]
struct Replay {
    now: u64,
    count: u64,
    row: Option<&'static str>,
}

/// A work of one level: this child of so many.
fn work_at(rt: &impl Abort, alloc: Global, now: u64, count: u64) -> Work
    ensures { result ≢ None }
{
    assert!(rt; 1 <= count);
    let mut work = Work::root(alloc);
    work.down(count).expect(rt, "memory");
    for _ in 0..now {
        assert!(rt; work.next());
    }
    assert!(rt; !work.is_spent());
    work
}

/// Whether the walker goes where that work leads.
fn goes(
    rt: &impl Abort,
    alloc: Global,
    walker: &mut Walker<Machine<'_>>,
    now: u64,
    count: u64,
) -> bool {
    let work = work_at(rt, alloc, now, count);
    walker.replay(&work).expect(rt, "memory")
}

/// The walker goes where that work leads, or doesn't where it fails.
fn expect_replay(
    rt: &impl Abort,
    alloc: Global,
    names: &Names,
    walker: &mut Walker<Machine<'_>>,
    wanted: Replay,
) {
    let goes = goes(rt, alloc, walker, wanted.now, wanted.count);
    match wanted.row {
        Some(row) => {
            assert!(rt; goes);
            assert!(rt; is_at(rt, alloc, names, &walker.machine, row));
        }
        None => assert!(rt; !goes),
    }
}

/// One walker, from the root of the only goal of the text, replays these works one after another.
fn expect_replays(rt: &impl Abort, alloc: Global, text: &[u8], works: &[Replay]) {
    let text = text_of(rt, alloc, text);
    let mut walker = Walker::new(alloc, machine_of(rt, alloc, &text, 10));
    for wanted in works {
        expect_replay(rt, alloc, &text.names, &mut walker, *wanted);
    }
}

#[test]
fn a_work_is_replayed(rt: HostRuntime) {
    expect_replays(
        &rt,
        rt.alloc(),
        b"eq(a,a). eq(b,b). ?- eq(X,Y) infers most.",
        &[
            Replay {
                now: 1,
                count: 2,
                row: Some("b, b"),
            },
            Replay {
                now: 0,
                count: 2,
                row: Some("a, a"),
            },
        ],
    );
}

#[test]
fn a_work_that_fails_is_not_replayed(rt: HostRuntime) {
    expect_replays(
        &rt,
        rt.alloc(),
        b"eq(a,a). eq(b,b). ?- eq(a,Y) infers most.",
        &[
            Replay {
                now: 1,
                count: 2,
                row: None,
            },
            Replay {
                now: 2,
                count: 3,
                row: None,
            },
            Replay {
                now: 0,
                count: 2,
                row: Some("a"),
            },
        ],
    );
}
