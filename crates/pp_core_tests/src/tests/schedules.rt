//! Reports in any order.
ghost use Rattle.std.specs.Prelude.{IfSome};
ghost use Rattle.pp_core_tests.specs.Sets.{IsFit};

use super::reports::{Shown, answer, known, look_at, parted, whole};
use super::sets::{Sets, worth};
use pp_core::{Accepted, Core, Report};
use std::alloc::Global;

/// A linear congruential generator.
#[derive(Drop)]
struct Draws {
    state: u64,
}

impl Draws {
    fn draw(&mut self) -> u32 {
        self.state = self
            .state
            .wrapping_mul(6_364_136_223_846_793_005)
            .wrapping_add(1_442_695_040_888_963_407);
        (self.state >> 33) as u32
    }
}

/// One of the live tasks or, now and then, any node.
fn drawn_node(live: &[u32], draws: &mut Draws) -> u32 {
    if live.is_empty() || draws.draw() % 4 == 0 {
        return 1 + draws.draw() % 15;
    }
    live[draws.draw() as usize % live.len()]
}

/// A report from a searcher that knew `under`.
fn drawn_report(alloc: Global, node: u32, under: u64, draws: &mut Draws) -> Option<Report<Sets>>
    ensures { IfSome result IsFit }
{
    if under > 255 {
        return None;
    }
    let easy = match draws.draw() % 4 {
        0 => None,
        1 => parted(alloc, node, under),
        _ => known(alloc, node, under).or_else(|| parted(alloc, node, under)),
    };
    Some(easy.unwrap_or_else(|| whole(alloc, node, under)))
}

/// What a report of the node is to be answered, by whether it was live, the number of live tasks and the value.
fn wanted(was_live: bool, live: usize, value: u64) -> Accepted {
    if !was_live {
        Accepted::Stale
    } else if live == 0 || value >= 128 {
        Accepted::Settled
    } else {
        Accepted::Taken
    }
}

/// One report; None where it isn't answered as it is to be.
fn turn(alloc: Global, core: &mut Core<Sets>, under: u64, draws: &mut Draws) -> Option<()> {
    let node = drawn_node(core.live.as_slice(), draws);
    let was_live = core.live.contains(&node);
    let report = drawn_report(alloc, node, under, draws)?;
    let accepted = answer(core, report)?;
    if accepted != wanted(was_live, core.live.len(), core.value) {
        return None;
    }
    Some(())
}

/// What a core shows when no task is live. Its searchers learn the value now and then.
fn end_of(alloc: Global, root: u32, draws: &mut Draws) -> Option<Shown> {
    let space = Sets;
    let mut core = Core::new(alloc, &space, root).ok()?;
    let mut under = 0;
    for _ in 0..200 {
        if core.live.is_empty() {
            break;
        }
        turn(alloc, &mut core, under, draws)?;
        if draws.draw() % 2 == 0 {
            under = core.value;
        }
    }
    look_at(&core)
}

#[test]
fn each_of_ten_thousand_schedules_ends_with_the_worth_of_the_root(rt: HostRuntime) {
    let mut draws = Draws { state: 1 };
    for i in 0..10_000 {
        let root = 1 + i % 3;
        let value = worth(root);
        let outcome = Some(if value >= 128 { 255 } else { value });
        let want = Some(Shown {
            live: 0,
            value,
            outcome,
        });
        assert_eq!(rt; end_of(rt.alloc(), root, &mut draws), want, "schedule {i}");
    }
}
