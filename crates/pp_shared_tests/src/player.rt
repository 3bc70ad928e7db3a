//! One of the threads that hit.
ghost use Rattle.std.specs.Prelude.{◌≡◌, false};
ghost use Rattle.pp_turn.specs.Seats.{is_in_turn, seat_number, seat_span};

use crate::turns::Counter;
use pp_turn::Seat;

/// How long the log was at the end of a turn, and its mark.
#[derive(Clone, Copy)]
pub struct Seen {
    pub length: usize,
    pub mark: u64,
}

#[derive(Drop)]
pub struct Player {
    pub seat: Seat<Counter>,
    pub number: u32,
    pub last: Seen,
    pub ghost numbered: { seat_number seat ≡ number },
    pub ghost one: { seat_span seat ≡ 1 },
    pub ghost out: { is_in_turn seat ≡ false },
}
