//! What one thread is given.
ghost use Rattle.std.specs.Prelude.{◌≡◌};
ghost use Rattle.pp_stop.specs.Seats.{IsSeatOf};
ghost use Rattle.pp_cell.specs.Passes.{IsPassOf, pass_space};

use pp_cell::Cell;
use pp_stop::Stop;
use pp_worker::{Desk, Explorer, Gate};

/// A desk, and what all workers share.
#[derive(Drop)]
pub(crate) struct Job<'a, 'b, E: Explorer, G: Gate> {
    pub(crate) space: &'a E,
    pub(crate) cell: &'b Cell<'a, E>,
    pub(crate) stop: &'b Stop,
    pub(crate) gate: &'b G,
    pub(crate) desk: Box<Desk<'a, E>>,
    pub ghost in_space: { space.now ≡ pass_space desk.value.pass },
    pub ghost at_cell: { IsPassOf cell.now desk.value.pass },
    pub ghost at_stop: { IsSeatOf stop.now desk.value.seat },
}
