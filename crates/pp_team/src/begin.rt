//! A search is begun.
ghost use Rattle.std.specs.Prelude.{◌≡◌, ◌≤◌, ◌+◌, All, IfOk, vec_len};
ghost use Rattle.pp_stop.specs.Seats.{IsSeatOf};
ghost use Rattle.pp_cell.specs.Passes.{IsPassOf, pass_root, pass_space};
ghost use Rattle.pp_team.specs.Places.{SitsAt};

use crate::hand::hand_with;
use crate::open::open;
use pp_cell::{Cell, Pass};
use pp_stop::{Stop, StopSeat};
use pp_worker::{Desk, Explorer};
use std::alloc::{AllocError, Global};

/// What the workers share, the caller's pass, the first worker's desk, and the passes and seats of the others.
#[derive(Drop)]
pub(crate) struct Begun<'a, E: Explorer> {
    pub(crate) space: &'a E,
    pub(crate) cell: Cell<'a, E>,
    pub(crate) own: Pass<'a, E>,
    pub(crate) stop: Stop,
    pub(crate) first: Box<Desk<'a, E>>,
    pub(crate) passes: Vec<Pass<'a, E>>,
    pub(crate) seats: Vec<StopSeat>,
}

/// A search for so many workers, whose first one has the root in its hand.
pub(crate) fn begin<'a, E: Explorer>(
    alloc: Global,
    space: &'a E,
    root: E::Task,
    workers: u32,
) -> Result<Begun<'a, E>, AllocError>
    requires { (1 ≤ workers) × (workers ≤ 64) }
    ensures own { IfOk result (λ b. IsPassOf b.cell b.own × (pass_space b.own ≡ space.now) × (pass_root b.own ≡ root)) }
    ensures first { IfOk result (λ b. SitsAt space.now b.cell b.stop b.first.value.pass b.first.value.seat) }
    ensures passes { IfOk result (λ b. All (λ p. (space.now ≡ pass_space p) × IsPassOf b.cell p) b.passes.items) }
    ensures seats { IfOk result (λ b. All (IsSeatOf b.stop) b.seats.items) }
    ensures count { IfOk result (λ b. (vec_len b.passes + 1 ≡ workers) × (vec_len b.seats + 1 ≡ workers)) }
{
    let hand = hand_with(alloc, space.copy_task(&root)?)?;
    let (cell, own, mut passes) = open(alloc, space, root, workers)?;
    let (stop, mut seats) = Stop::new(alloc, workers)?;
    let (pass, seat) = (passes.remove(0), seats.remove(0));
    let desk = Desk::new(alloc, space, 0, pass, seat, hand, Vec::new(alloc))?;
    let first = Box::new(alloc, desk)?;
    Ok(Begun {
        space,
        cell,
        own,
        stop,
        first,
        passes,
        seats,
    })
}
