//! A core, report by report.
use super::reports::{Shown, answer, look_at, parted, whole};
use super::sets::Sets;
use pp_core::{Accepted, Core, core_runs_keep_the_worth};
use std::alloc::Global;

/// What is answered to a report of a node, and what the core shows then. The two children of the node are left, or it
/// is searched to its end.
fn reported(
    alloc: Global,
    core: &mut Core<Sets>,
    node: u32,
    is_parted: bool,
) -> Option<(Accepted, Shown)> {
    let report = if is_parted {
        parted(alloc, node, 0)?
    } else {
        whole(alloc, node, 0)
    };
    let accepted = answer(core, report)?;
    Some((accepted, look_at(core)?))
}

fn waits(live: usize, value: u64) -> Shown {
    Shown {
        live,
        value,
        outcome: None,
    }
}

fn ends(live: usize, value: u64, outcome: u64) -> Shown {
    Shown {
        live,
        value,
        outcome: Some(outcome),
    }
}

#[test]
fn a_task_gives_way_to_its_rest(rt: HostRuntime) {
    let space = Sets;
    let mut core = Core::new(rt.alloc(), &space, 2).expect(&rt, "memory");
    for (node, is_parted, want) in [
        (2, true, (Accepted::Taken, waits(2, 0))),
        (2, true, (Accepted::Stale, waits(2, 0))),
        (4, false, (Accepted::Taken, waits(1, 3))),
        (5, false, (Accepted::Settled, ends(0, 15, 15))),
        (5, false, (Accepted::Stale, ends(0, 15, 15))),
    ] {
        assert_eq!(rt;
            reported(rt.alloc(), &mut core, node, is_parted),
            Some(want),
            "{node}"
        );
    }
}

#[test]
fn a_settled_value_ends_the_search_while_a_task_is_live(rt: HostRuntime) {
    let space = Sets;
    let mut core = Core::new(rt.alloc(), &space, 3).expect(&rt, "memory");
    for (node, is_parted, want) in [
        (3, true, (Accepted::Taken, waits(2, 0))),
        (7, false, (Accepted::Settled, ends(1, 192, 255))),
        (7, false, (Accepted::Stale, ends(1, 192, 255))),
        (6, false, (Accepted::Settled, ends(0, 240, 255))),
    ] {
        assert_eq!(rt;
            reported(rt.alloc(), &mut core, node, is_parted),
            Some(want),
            "{node}"
        );
    }
}

/// What is weighed of a report of the node whose two children are left: the place of the node among the live tasks,
/// the first and the last of the rest, and the value.
fn weighed(alloc: Global, core: &mut Core<Sets>, node: u32) -> Option<(usize, u32, u32, u64)> {
    let replacement = core.weigh(&parted(alloc, node, 0)?).ok()??;
    let (first, last) = (*replacement.rest.first()?, *replacement.rest.last()?);
    Some((replacement.place, first, last, replacement.value))
}

#[test]
fn weighing_changes_nothing(rt: HostRuntime) {
    let space = Sets;
    core_runs_keep_the_worth(&space);
    let mut core = Core::new(rt.alloc(), &space, 3).expect(&rt, "memory");
    for (node, want) in [(3, Some((0, 6, 7, 0))), (6, None), (3, Some((0, 6, 7, 0)))] {
        assert_eq!(rt; weighed(rt.alloc(), &mut core, node), want, "{node}");
        assert_eq!(rt; look_at(&core), Some(waits(1, 0)), "{node}");
    }
}

/// The first and the last of the tasks that are left of a node.
fn rest_of(alloc: Global, node: u32) -> Option<(u32, u32)> {
    let rest = parted(alloc, node, 0)?.rest.into_vec();
    Some((*rest.first()?, *rest.last()?))
}

#[test]
fn tasks_keep_their_order(rt: HostRuntime) {
    for (node, want) in [(1, Some((2, 3))), (7, Some((14, 15))), (8, None)] {
        assert_eq!(rt; rest_of(rt.alloc(), node), want, "{node}");
    }
}
