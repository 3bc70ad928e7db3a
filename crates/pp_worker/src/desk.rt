//! What one worker has.
ghost use Rattle.std.specs.Prelude.{◌≡◌, ◌≤◌, [], IfOk};
ghost use Rattle.pp_cell.specs.Passes.{IsBelow, pass_space};

use crate::budget::FIRST_BUDGET;
use crate::explorer::Explorer;
use pp_cell::Pass;
use pp_deal::{Hand, Peek};
use pp_stop::StopSeat;
use std::alloc::{AllocError, Global};

/// A worker's pass, its seat at the stop word, its hand, its peeks at the hands of others, the value that its pass last
/// saw or something below it, and what it keeps between its searches.
#[derive(Drop)]
pub struct Desk<'a, E: Explorer> {
    pub worker: u32,
    pub pass: Pass<'a, E>,
    pub seat: StopSeat,
    pub hand: Hand<E::Task>,
    pub peeks: Vec<Peek<E::Task>>,
    pub seen: E::Value,
    pub walker: E::Walker,
    /// How many reductions its next search makes at least before it reports, where the task is of its own hand. It begins
    /// at 200, doubles with each such search up to 25,600, and is 200 again once a task was stolen.
    pub budget: u32,
    pub ghost fits: { ∥ E.fits (pass_space pass) seen ∥₁ },
    pub ghost below: { IsBelow pass seen },
    pub ghost belongs: { ∥ E.belongs (pass_space pass) walker ∥₁ },
    pub ghost some: { 1 ≤ budget },
}

impl<'a, E: Explorer> Desk<'a, E> {
    /// A desk that has seen nothing yet.
    pub fn new(
        alloc: Global,
        space: &E,
        worker: u32,
        pass: Pass<'a, E>,
        seat: StopSeat,
        hand: Hand<E::Task>,
        peeks: Vec<Peek<E::Task>>,
    ) -> Result<Desk<'a, E>, AllocError>
        requires { space.now ≡ pass_space pass }
        ensures worker { IfOk result (λ desk. desk.worker ≡ worker) }
        ensures pass { IfOk result (λ desk. desk.pass ≡ pass.entry) }
        ensures seat { IfOk result (λ desk. desk.seat ≡ seat) }
        ensures hand { IfOk result (λ desk. desk.hand ≡ hand) }
        ensures peeks { IfOk result (λ desk. desk.peeks.items ≡ peeks.items) }
    {
        let walker = space.walker(alloc)?;
        let seen = space.empty();
        Ok(Desk {
            worker,
            pass,
            seat,
            hand,
            peeks,
            seen,
            walker,
            budget: FIRST_BUDGET,
        })
    }
}
