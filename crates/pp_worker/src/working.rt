//! A worker works until the search is over.
ghost use Rattle.std.specs.Prelude.{◌≡◌, ◌++◌, ℕ, suc, true, IfOk, OnErr, OnOk};
ghost use Rattle.pp_deal.specs.Hands.{SameHand};
ghost use Rattle.pp_stop.specs.Seats.{IsSeatOf, saw_dry, saw_settled};
ghost use Rattle.pp_cell.specs.Passes.{IsPassOf, SamePass, is_over, own_entries, pass_number, pass_root, pass_space, pass_value};
ghost use Rattle.pp_worker.specs.Peeks.{AreSamePeeks};
ghost use Rattle.pp_worker.specs.Turns.{HasTurned, HasWorked, looks};

use crate::desk::Desk;
use crate::explorer::Explorer;
use crate::gate::Gate;
use crate::report::look;
use crate::turned::Turned;
use crate::turns::serve;
use crossbeam_utils::Backoff;
use pp_cell::Cell;
use pp_space::Settled;
use pp_stop::{Stop, StopSeat, Up};
use std::alloc::{AllocError, Global};
use std::sync::Wait;

/// One turn, unless the stop word is up; whether the search was seen to be settled. After an idle turn the worker pauses.
fn step<'a, E: Explorer, G: Gate, R: Wait>(
    rt: &R,
    alloc: Global,
    space: &E,
    cell: &Cell<'a, E>,
    stop: &Stop,
    desk: &mut Desk<'a, E>,
    gate: &G,
    pause: &Backoff,
) -> Result<bool, AllocError>
    requires space { space.now ≡ pass_space desk.old.pass }
    requires cell { IsPassOf cell.now desk.old.pass }
    requires seat { IsSeatOf stop.now desk.old.seat }
    ensures pass { SamePass desk.old.pass desk.new.pass }
    ensures own { OnOk result (HasTurned desk.old.pass desk.new.pass) }
    ensures settled { IfOk result (λ is_settled. is_settled ≡ true → saw_settled desk.new.seat ≡ true) }
    ensures seat { IsSeatOf stop.now desk.new.seat }
    ensures hand { SameHand desk.old.hand desk.new.hand }
    ensures peeks { AreSamePeeks desk.old.peeks.items desk.new.peeks.items }
{
    match stop.is_up(&mut desk.seat) {
        Up::No => match serve(rt, alloc, space, cell, stop, desk, gate)? {
            Turned::Idle => pause.snooze(),
            Turned::Worked => pause.reset(),
            Turned::Stopped => {}
        },
        Up::Settled => return Ok(true),
        Up::Dry => return Err(AllocError),
    }
    Ok(false)
}

/// Turns until the search was seen to be settled.
fn turn_until_settled<'a, E: Explorer, G: Gate, R: Wait>(
    rt: &R,
    alloc: Global,
    space: &E,
    cell: &Cell<'a, E>,
    stop: &Stop,
    desk: &mut Desk<'a, E>,
    gate: &G,
) -> Result<(), AllocError>
    requires space { space.now ≡ pass_space desk.old.pass }
    requires cell { IsPassOf cell.now desk.old.pass }
    requires seat { IsSeatOf stop.now desk.old.seat }
    ensures pass { SamePass desk.old.pass desk.new.pass }
    ensures own { OnOk result (HasTurned desk.old.pass desk.new.pass) }
    ensures settled { OnOk result (saw_settled desk.new.seat ≡ true) }
    ensures seat { IsSeatOf stop.now desk.new.seat }
    ensures hand { SameHand desk.old.hand desk.new.hand }
    ensures peeks { AreSamePeeks desk.old.peeks.items desk.new.peeks.items }
{
    let pause = Backoff::new();
    for _ in rt.forever() {
        if step(rt, alloc, space, cell, stop, desk, gate, &pause)? {
            return Ok(());
        }
    }
    unreachable!()
}

/// Looks until a look shows that the search is over.
fn look_until_over<'a, E: Explorer, R: Wait>(
    rt: &R,
    cell: &Cell<'a, E>,
    desk: &mut Desk<'a, E>,
) -> Result<Settled<'a, E>, AllocError>
    requires cell { IsPassOf cell.now desk.old.pass }
    ensures pass { SamePass desk.old.pass desk.new.pass }
    ensures own { OnOk result ((more : ℕ) × (own_entries desk.new.pass ≡ own_entries desk.old.pass ++ looks (pass_number desk.old.pass) (suc more))) }
    ensures over { OnOk result (is_over desk.new.pass ≡ true) }
    ensures space { IfOk result (λ s. s.space.now ≡ pass_space desk.old.pass) }
    ensures root { IfOk result (λ s. s.root ≡ pass_root desk.old.pass) }
    ensures value { IfOk result (λ s. s.value ≡ pass_value desk.new.pass) }
    ensures seat { desk.new.seat ≡ desk.old.seat }
    ensures hand { desk.new.hand ≡ desk.old.hand }
    ensures peeks { desk.new.peeks ≡ desk.old.peeks }
{
    for _ in rt.forever() {
        if let Some(settled) = look(rt, cell, desk)? {
            return Ok(settled);
        }
    }
    unreachable!()
}

/// Raises the dry bit: there is want of memory.
fn run_dry(stop: &Stop, seat: &mut StopSeat) -> AllocError
    requires { IsSeatOf stop.now seat.old }
    ensures seat { IsSeatOf stop.now seat.new }
    ensures dry { saw_dry seat.new ≡ true }
{
    stop.raise_dry(seat);
    AllocError
}

/// Turns until it saw that the search is settled, and then looks until a look shows that it is over. On want of memory the
/// dry bit is raised, and where that bit alone was seen there is want of memory.
pub fn work<'a, E: Explorer, G: Gate, R: Wait>(
    rt: &R,
    alloc: Global,
    space: &E,
    cell: &Cell<'a, E>,
    stop: &Stop,
    desk: &mut Desk<'a, E>,
    gate: &G,
) -> Result<Settled<'a, E>, AllocError>
    requires space { space.now ≡ pass_space desk.old.pass }
    requires cell { IsPassOf cell.now desk.old.pass }
    requires seat { IsSeatOf stop.now desk.old.seat }
    ensures pass { SamePass desk.old.pass desk.new.pass }
    ensures own { OnOk result (HasWorked desk.old.pass desk.new.pass) }
    ensures over { OnOk result (is_over desk.new.pass ≡ true) }
    ensures space { IfOk result (λ s. s.space.now ≡ pass_space desk.old.pass) }
    ensures root { IfOk result (λ s. s.root ≡ pass_root desk.old.pass) }
    ensures value { IfOk result (λ s. s.value ≡ pass_value desk.new.pass) }
    ensures settled { OnOk result (saw_settled desk.new.seat ≡ true) }
    ensures dry { OnErr result (saw_dry desk.new.seat ≡ true) }
    ensures seat { IsSeatOf stop.now desk.new.seat }
    ensures hand { SameHand desk.old.hand desk.new.hand }
    ensures peeks { AreSamePeeks desk.old.peeks.items desk.new.peeks.items }
{
    if turn_until_settled(rt, alloc, space, cell, stop, desk, gate).is_err() {
        return Err(run_dry(stop, &mut desk.seat));
    }
    match look_until_over(rt, cell, desk) {
        Ok(settled) => Ok(settled),
        Err(_) => Err(run_dry(stop, &mut desk.seat)),
    }
}
