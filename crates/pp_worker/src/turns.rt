//! One turn of a worker.
ghost use Rattle.std.specs.Prelude.{◌≡◌, true, false, IfOk};
ghost use Rattle.pp_deal.specs.Hands.{SameHand, is_drained};
ghost use Rattle.pp_stop.specs.Seats.{IsSeatOf, has_seen, late};
ghost use Rattle.pp_cell.specs.Passes.{IsPassOf, SamePass, pass_space};
ghost use Rattle.pp_worker.specs.Peeks.{AreSamePeeks};
ghost use Rattle.pp_worker.specs.Turns.{HasReported, IsUntouched, MatchTurned};

use crate::desk::Desk;
use crate::explorer::Explorer;
use crate::gate::{Gate, Point};
use crate::offer::offer_if_taken;
use crate::report::{look_if_settled, send};
use crate::search::{Explored, explore};
use crate::take::{Next, next_task};
use crate::turned::Turned;
use pp_cell::Cell;
use pp_stop::{Stop, StopSeat, Up};
use std::alloc::{AllocError, Global};
use std::sync::Wait;

/// A turn past its first load of the stop word.
pub(crate) fn serve<'a, E: Explorer, G: Gate, R: Wait>(
    rt: &R,
    alloc: Global,
    space: &E,
    cell: &Cell<'a, E>,
    stop: &Stop,
    desk: &mut Desk<'a, E>,
    gate: &G,
) -> Result<Turned, AllocError>
    requires space { space.now ≡ pass_space desk.old.pass }
    requires cell { IsPassOf cell.now desk.old.pass }
    requires seat { IsSeatOf stop.now desk.old.seat }
    ensures pass { SamePass desk.old.pass desk.new.pass }
    ensures turned { IfOk result (λ turned. MatchTurned turned (HasReported desk.old desk.new) ⊥ ((is_drained desk.new.hand ≡ true) × IsUntouched desk.old desk.new)) }
    ensures seat { IsSeatOf stop.now desk.new.seat }
    ensures late { has_seen desk.old.seat ≡ false → late desk.new.seat ≡ late desk.old.seat }
    ensures hand { SameHand desk.old.hand desk.new.hand }
    ensures peeks { AreSamePeeks desk.old.peeks.items desk.new.peeks.items }
{
    let Some(Next { task, is_own }) = next_task(&mut desk.hand, &mut desk.peeks) else {
        gate.pass(desk.worker, Point::Idle);
        return Ok(Turned::Idle);
    };
    gate.pass(desk.worker, Point::Taken);
    let Explored { report, offers } = explore(alloc, space, stop, desk, task, is_own)?;
    let accepted = send(rt, cell, desk, report)?;
    gate.pass(desk.worker, Point::Reported);
    offer_if_taken(&mut desk.hand, accepted, offers)?;
    gate.pass(desk.worker, Point::Offered);
    look_if_settled(rt, cell, stop, desk, accepted)?;
    Ok(Turned::Worked)
}

/// One load of the stop word: whether the seat has seen it up by then.
fn is_stopped(stop: &Stop, seat: &mut StopSeat) -> bool
    requires { IsSeatOf stop.now seat.old }
    ensures seat { IsSeatOf stop.now seat.new }
    ensures seen { result ≡ has_seen seat.new }
    ensures late { has_seen seat.old ≡ false → late seat.new ≡ late seat.old }
{
    match stop.is_up(seat) {
        Up::No => false,
        Up::Settled => true,
        Up::Dry => true,
    }
}

/// One turn: loads the stop word, takes a task or steals one, searches it, reports, and offers the rest where the report
/// was taken; where it was settled, looks, and raises the settled bit by what the look gave.
pub fn turn<'a, E: Explorer, G: Gate, R: Wait>(
    rt: &R,
    alloc: Global,
    space: &E,
    cell: &Cell<'a, E>,
    stop: &Stop,
    desk: &mut Desk<'a, E>,
    gate: &G,
) -> Result<Turned, AllocError>
    requires space { space.now ≡ pass_space desk.old.pass }
    requires cell { IsPassOf cell.now desk.old.pass }
    requires seat { IsSeatOf stop.now desk.old.seat }
    ensures pass { SamePass desk.old.pass desk.new.pass }
    ensures turned { IfOk result (λ turned. MatchTurned turned (HasReported desk.old desk.new) (has_seen desk.new.seat ≡ true) (is_drained desk.new.hand ≡ true)) }
    ensures untouched { IfOk result (λ turned. MatchTurned turned (Unit {0}) (IsUntouched desk.old desk.new) (IsUntouched desk.old desk.new)) }
    ensures seat { IsSeatOf stop.now desk.new.seat }
    ensures late { has_seen desk.old.seat ≡ false → late desk.new.seat ≡ late desk.old.seat }
    ensures hand { SameHand desk.old.hand desk.new.hand }
    ensures peeks { AreSamePeeks desk.old.peeks.items desk.new.peeks.items }
{
    if is_stopped(stop, &mut desk.seat) {
        return Ok(Turned::Stopped);
    }
    serve(rt, alloc, space, cell, stop, desk, gate)
}
