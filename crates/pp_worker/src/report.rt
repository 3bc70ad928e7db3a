//! A worker reports, and looks.
ghost use Rattle.std.specs.Prelude.{◌≡◌, ◌++◌, ◌∷◌, [], false, true, IfOk, IfSome, MatchOption, OnOk};
ghost use Rattle.pp_core.specs.declared.accepted.Accepted.TheVariants as answers;
ghost use Rattle.pp_core.specs.declared.entry.Act.TheVariants.{Looked};
ghost use Rattle.pp_stop.specs.Seats.{IsSeatOf, SameLoads, saw_settled};
ghost use Rattle.pp_worker.specs.Turns.{looks_if};
ghost use Rattle.pp_cell.specs.Entries.{act_of, entry};
ghost use Rattle.pp_cell.specs.Passes.{IsBelow, IsFitFor, IsPassOf, SamePass, is_over, own_entries, pass_number, pass_root, pass_space, pass_value};

use crate::desk::Desk;
use crate::explorer::Explorer;
use pp_cell::{Accepted, Answered, Cell, Report};
use pp_space::Settled;
use pp_stop::Stop;
use std::alloc::AllocError;
use std::sync::Wait;

/// Reports, and keeps the value after the report.
pub(crate) fn send<'a, E: Explorer, R: Wait>(
    rt: &R,
    cell: &Cell<'a, E>,
    desk: &mut Desk<'a, E>,
    report: Report<E>,
) -> Result<Accepted, AllocError>
    requires cell { IsPassOf cell.now desk.old.pass }
    requires fit { IsFitFor desk.old.pass report }
    requires under { IsBelow desk.old.pass report.under }
    ensures pass { SamePass desk.old.pass desk.new.pass }
    ensures own { IfOk result (λ accepted. own_entries desk.new.pass ≡ own_entries desk.old.pass ++ entry (pass_number desk.old.pass) (act_of accepted report) ∷ []) }
    ensures worker { desk.new.worker ≡ desk.old.worker }
    ensures seat { desk.new.seat ≡ desk.old.seat }
    ensures hand { desk.new.hand ≡ desk.old.hand }
    ensures peeks { desk.new.peeks ≡ desk.old.peeks }
{
    let Answered { accepted, seen } = cell.report(rt, &mut desk.pass, report)?;
    desk.seen = seen;
    Ok(accepted)
}

/// Looks.
pub(crate) fn look<'a, E: Explorer, R: Wait>(
    rt: &R,
    cell: &Cell<'a, E>,
    desk: &mut Desk<'a, E>,
) -> Result<Option<Settled<'a, E>>, AllocError>
    requires cell { IsPassOf cell.now desk.old.pass }
    ensures pass { SamePass desk.old.pass desk.new.pass }
    ensures own { OnOk result (own_entries desk.new.pass ≡ own_entries desk.old.pass ++ entry (pass_number desk.old.pass) Looked ∷ []) }
    ensures over { IfOk result (λ o. MatchOption o (is_over desk.new.pass ≡ false) (λ s. is_over desk.new.pass ≡ true)) }
    ensures space { IfOk result (λ o. IfSome o (λ s. s.space.now ≡ pass_space desk.old.pass)) }
    ensures root { IfOk result (λ o. IfSome o (λ s. s.root ≡ pass_root desk.old.pass)) }
    ensures value { IfOk result (λ o. IfSome o (λ s. s.value ≡ pass_value desk.new.pass)) }
    ensures seat { desk.new.seat ≡ desk.old.seat }
    ensures hand { desk.new.hand ≡ desk.old.hand }
    ensures peeks { desk.new.peeks ≡ desk.old.peeks }
{
    cell.look(rt, &mut desk.pass)
}

/// Looks, and raises the settled bit by what the look gave.
fn show<'a, E: Explorer, R: Wait>(
    rt: &R,
    cell: &Cell<'a, E>,
    stop: &Stop,
    desk: &mut Desk<'a, E>,
) -> Result<(), AllocError>
    requires cell { IsPassOf cell.now desk.old.pass }
    requires seat { IsSeatOf stop.now desk.old.seat }
    ensures pass { SamePass desk.old.pass desk.new.pass }
    ensures own { OnOk result (own_entries desk.new.pass ≡ own_entries desk.old.pass ++ entry (pass_number desk.old.pass) Looked ∷ []) }
    ensures seat { IsSeatOf stop.now desk.new.seat }
    ensures loads { SameLoads desk.old.seat desk.new.seat }
    ensures settled { OnOk result (is_over desk.new.pass ≡ true → saw_settled desk.new.seat ≡ true) }
    ensures hand { desk.new.hand ≡ desk.old.hand }
    ensures peeks { desk.new.peeks ≡ desk.old.peeks }
{
    if let Some(settled) = look(rt, cell, desk)? {
        stop.raise_settled(&mut desk.seat, &settled);
    }
    Ok(())
}

/// Looks where the report settled the search.
pub(crate) fn look_if_settled<'a, E: Explorer, R: Wait>(
    rt: &R,
    cell: &Cell<'a, E>,
    stop: &Stop,
    desk: &mut Desk<'a, E>,
    accepted: Accepted,
) -> Result<(), AllocError>
    requires cell { IsPassOf cell.now desk.old.pass }
    requires seat { IsSeatOf stop.now desk.old.seat }
    ensures pass { SamePass desk.old.pass desk.new.pass }
    ensures own { OnOk result (own_entries desk.new.pass ≡ own_entries desk.old.pass ++ looks_if (pass_number desk.old.pass) accepted) }
    ensures settled { OnOk result (accepted ≡ answers.Settled → is_over desk.new.pass ≡ true → saw_settled desk.new.seat ≡ true) }
    ensures seat { IsSeatOf stop.now desk.new.seat }
    ensures loads { SameLoads desk.old.seat desk.new.seat }
    ensures hand { desk.new.hand ≡ desk.old.hand }
    ensures peeks { desk.new.peeks ≡ desk.old.peeks }
{
    match accepted {
        Accepted::Settled => show(rt, cell, stop, desk),
        Accepted::Taken => Ok(()),
        Accepted::Stale => Ok(()),
    }
}
