//! The jobs of all workers.
ghost use Rattle.std.specs.Prelude.{◌≡◌, ◌≤◌, ◌+◌, All, IfOk, vec_len};
ghost use Rattle.pp_stop.specs.Seats.{IsSeatOf};
ghost use Rattle.pp_cell.specs.Passes.{IsPassOf, pass_space};
ghost use Rattle.pp_team.specs.Places.{SitsAt};

use crate::hand::empty_hand;
use crate::job::Job;
use crate::peeks::deal_peeks;
use pp_cell::{Cell, Pass};
use pp_stop::{Stop, StopSeat};
use pp_worker::{Desk, Explorer, Gate};
use std::alloc::{AllocError, Global};

/// A desk with an empty hand and no peeks.
fn desk_of<'a, E: Explorer>(
    alloc: Global,
    space: &'a E,
    pass: Pass<'a, E>,
    seat: StopSeat,
) -> Result<Box<Desk<'a, E>>, AllocError>
    requires { space.now ≡ pass_space pass }
    ensures pass { IfOk result (λ desk. desk.value.pass ≡ pass.entry) }
    ensures seat { IfOk result (λ desk. desk.value.seat ≡ seat) }
{
    let worker = pass.number();
    let hand = empty_hand(alloc)?;
    let desk = Desk::new(alloc, space, worker, pass, seat, hand, Vec::new(alloc))?;
    Ok(Box::new(alloc, desk)?)
}

/// The jobs of all others, and then that of the first worker. Each has a peek at each other's hand.
pub(crate) fn recruit<'a, 'b, E: Explorer, G: Gate>(
    alloc: Global,
    space: &'a E,
    cell: &'b Cell<'a, E>,
    stop: &'b Stop,
    gate: &'b G,
    first: Box<Desk<'a, E>>,
    mut passes: Vec<Pass<'a, E>>,
    mut seats: Vec<StopSeat>,
) -> Result<Vec<Job<'a, 'b, E, G>>, AllocError>
    requires first { SitsAt space.now cell.now stop.now first.value.pass first.value.seat }
    requires passes { All (λ p. (space.now ≡ pass_space p) × IsPassOf cell.now p) passes.items }
    requires seats { All (IsSeatOf stop.now) seats.items }
    requires count { (vec_len seats ≡ vec_len passes) × (vec_len passes ≤ 63) }
    ensures { IfOk result (λ jobs. vec_len jobs ≡ vec_len passes.entry + 1) }
{
    let mut jobs = Vec::with_capacity(alloc, passes.len() + 1)?;
    while let Some(pass) = passes.pop() {
        let Some(seat) = seats.pop() else {
            unreachable!()
        };
        let desk = desk_of(alloc, space, pass, seat)?;
        jobs.push_reserved(Job {
            space,
            cell,
            stop,
            gate,
            desk,
        });
    }
    jobs.push_reserved(Job {
        space,
        cell,
        stop,
        gate,
        desk: first,
    });
    deal_peeks(alloc, &mut jobs)?;
    Ok(jobs)
}
