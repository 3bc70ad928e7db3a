//! The search of one task by a team.
ghost use Rattle.std.specs.Prelude.{◌≡◌, ◌≤◌, IfOk};
ghost use Rattle.pp_team.specs.Places.{SitsAt};

use crate::begin::{Begun, begin};
use crate::recruit::recruit;
use crate::threads::work_all;
use pp_cell::Cell;
use pp_stop::Stop;
use pp_worker::{Desk, Explorer, Gate, OpenGate, turn};
use std::alloc::{AllocError, Global};
use std::sync::Wait;
use std::thread::Threads;

/// One turn at a desk, of which no gate is told.
fn first_turn<'a, E: Explorer, R: Wait>(
    rt: &R,
    alloc: Global,
    space: &E,
    cell: &Cell<'a, E>,
    stop: &Stop,
    desk: &mut Desk<'a, E>,
) -> Result<(), AllocError>
    requires { SitsAt space.now cell.now stop.now desk.old.pass desk.old.seat }
    ensures { SitsAt space.now cell.now stop.now desk.new.pass desk.new.seat }
{
    turn(rt, alloc, space, cell, stop, desk, &OpenGate)?;
    Ok(())
}

/// The outcome of the root's worth, found by so many workers, the caller among them. The caller makes one turn of the
/// first worker before it starts threads, and tells the gate nothing of it; where that turn ends the search, no thread
/// is started. Where none can be started, the workers work one after another.
pub fn search_with<E: Explorer, G: Gate, R: Threads + Wait + Sync>(
    rt: &R,
    alloc: Global,
    space: &E,
    root: E::Task,
    workers: u32,
    gate: &G,
) -> Result<E::Outcome, AllocError>
    requires workers { (1 ≤ workers) × (workers ≤ 64) }
    ensures outcome { IfOk result (λ outcome. outcome ≡ E.outcome_of space.now (E.worth space.now root)) }
{
    let Begun {
        space: _,
        cell,
        mut own,
        stop,
        mut first,
        passes,
        seats,
    } = begin(alloc, space, root, workers)?;
    first_turn(rt, alloc, space, &cell, &stop, &mut first)?;
    if let Some(settled) = cell.look(rt, &mut own)? {
        return settled.outcome();
    }
    let jobs = recruit(alloc, space, &cell, &stop, gate, first, passes, seats)?;
    work_all(rt, alloc, jobs);
    match cell.look(rt, &mut own)? {
        Some(settled) => settled.outcome(),
        None => Err(AllocError),
    }
}
