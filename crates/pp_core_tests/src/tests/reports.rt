//! Reports of nodes, as they come from a searcher that knew some value.
ghost use Rattle.std.specs.Prelude.{◌≡◌, IfSome};
ghost use Rattle.pp_core_tests.specs.Sets.{IsSet, IsFit};

use super::sets::{Sets, worth};
use pp_core::{Accepted, Core, Report, ReportOf, Tasks};
use pp_space::Lattice;
use std::alloc::Global;

/// All that a node is worth is found at once.
pub fn whole(alloc: Global, node: u32, under: u64) -> Report<Sets>
    requires { IsSet under }
    ensures { IsFit result }
{
    ReportOf {
        task: node,
        rest: Tasks::from_vec(Vec::new(alloc)),
        found: worth(node),
        under,
    }
}

/// Nothing is found, since all of it is known; None where it isn't.
pub fn known(alloc: Global, node: u32, under: u64) -> Option<Report<Sets>>
    requires { IsSet under }
    ensures { IfSome result IsFit }
{
    if worth(node) | under != under {
        return None;
    }
    Some(ReportOf {
        task: node,
        rest: Tasks::from_vec(Vec::new(alloc)),
        found: 0,
        under,
    })
}

/// The two children of a node are left; None where it has none.
pub fn parted(alloc: Global, node: u32, under: u64) -> Option<Report<Sets>>
    requires { IsSet under }
    ensures { IfSome result IsFit }
{
    if node > 7 {
        return None;
    }
    let (left, right) = (2 * node, 2 * node + 1);
    if worth(node) != worth(left) | worth(right) {
        return None;
    }
    let rest = vec![in alloc; left, right].ok()?;
    Some(ReportOf {
        task: node,
        rest: Tasks::from_vec(rest),
        found: 0,
        under,
    })
}

/// What a core answers to a report that was made under a value below its own; None where it wasn't.
pub fn answer(core: &mut Core<Sets>, report: Report<Sets>) -> Option<Accepted>
    requires { IsFit report }
{
    if !core.space.below(&report.under, &core.value).ok()? {
        return None;
    }
    core.accept(report).ok()
}

/// How many tasks are live, the value, and the outcome once the search is done.
#[derive(Debug, Clone, Copy, PartialEq, Eq)]
pub struct Shown {
    pub live: usize,
    pub value: u64,
    pub outcome: Option<u64>,
}

pub fn look_at(core: &Core<Sets>) -> Option<Shown> {
    let outcome = match core.settle().ok()? {
        Some(settled) => Some(settled.outcome().ok()?),
        None => None,
    };
    Some(Shown {
        live: core.live.len(),
        value: core.value,
        outcome,
    })
}
