//! Teams of workers in threads.
ghost use Rattle.std.specs.Prelude.{◌≤◌};

use super::heights::{Heights, Span};
use pp_team::search_with;
use pp_worker::OpenGate;
use std::alloc::{AllocError, Global};
use std::sync::Wait;
use std::thread::Threads;

const WIDE: Span = Span {
    low: 0,
    high: 20_000,
};

/// Below its 24,000th number is one that settles the search.
const WIDER: Span = Span {
    low: 0,
    high: 200_000,
};

/// What a team of so many workers finds.
fn found<R: Threads + Wait + Sync>(
    rt: &R,
    alloc: Global,
    root: Span,
    workers: u32,
) -> Result<u32, AllocError>
    requires { (1 ≤ workers) × (workers ≤ 64) }
{
    let space = Heights { alloc };
    search_with(rt, alloc, &space, root, workers, &OpenGate)
}

#[test]
fn teams_of_any_size_find_the_greatest_height(rt: HostRuntime) {
    for workers in [1, 2, 4, 64] {
        let wide = found(&rt, rt.alloc(), WIDE, workers);
        let wider = found(&rt, rt.alloc(), WIDER, workers);
        assert_eq!(rt; (wide, wider), (Ok(999_959), Ok(1_000_000)), "{workers}");
    }
}
