//! A worker searches a task under what it saw.
ghost use Rattle.std.specs.Prelude.{◌≡◌, false, IfOk};
ghost use Rattle.pp_stop.specs.Seats.{IsSeatOf, has_seen, late};
ghost use Rattle.pp_cell.specs.Passes.{IsBelow, IsFitFor, pass_space};

use crate::budget::{FIRST_BUDGET, doubled};
use crate::desk::Desk;
use crate::explorer::Explorer;
use crate::found::FoundOf;
use pp_cell::{Report, ReportOf};
use pp_core::copy_tasks;
use pp_space::Space;
use pp_stop::Stop;
use std::alloc::{AllocError, Global};

/// A report, and its rest once more.
#[derive(Drop)]
pub(crate) struct Explored<S: Space> {
    pub(crate) report: Report<S>,
    pub(crate) offers: Vec<S::Task>,
}

/// Searches the task for a while, under what the desk saw. A task of the own hand is searched for longer each time.
pub(crate) fn explore<'a, E: Explorer>(
    alloc: Global,
    space: &E,
    stop: &Stop,
    desk: &mut Desk<'a, E>,
    task: E::Task,
    is_own: bool,
) -> Result<Explored<E>, AllocError>
    requires space { space.now ≡ pass_space desk.old.pass }
    requires seat { IsSeatOf stop.now desk.old.seat }
    ensures task { IfOk result (λ x. x.report.task ≡ task) }
    ensures fit { IfOk result (λ x. IsFitFor desk.old.pass x.report) }
    ensures under { IfOk result (λ x. IsBelow desk.old.pass x.report.under) }
    ensures offers { IfOk result (λ x. x.offers.items ≡ x.report.rest) }
    ensures worker { desk.new.worker ≡ desk.old.worker }
    ensures pass { desk.new.pass ≡ desk.old.pass }
    ensures hand { desk.new.hand ≡ desk.old.hand }
    ensures peeks { desk.new.peeks ≡ desk.old.peeks }
    ensures seat { IsSeatOf stop.now desk.new.seat }
    ensures late { has_seen desk.old.seat ≡ false → late desk.new.seat ≡ late desk.old.seat }
{
    let budget = if is_own { desk.budget } else { FIRST_BUDGET };
    let FoundOf { value, rest, up: _ } = space.search(
        &mut desk.walker,
        &task,
        &desk.seen,
        budget,
        stop,
        &mut desk.seat,
    )?;
    desk.budget = if is_own { doubled(budget) } else { budget };
    let under = space.copy_of(&desk.seen)?;
    let offers = copy_tasks(alloc, space, rest.as_slice())?;
    let report = ReportOf {
        task,
        rest,
        found: value,
        under,
    };
    Ok(Explored { report, offers })
}
