//! A turn: a seat waits for it, and leaves it.
ghost use Rattle.std.specs.Prelude.{◌≡◌, ◌<◌, ◌^◌, Some, true, false, MatchBool};
ghost use Rattle.pp_turn.specs.Logs.{Adds, Later};
ghost use Rattle.pp_turn.specs.Seats.{IsSeatOf, SameSeat, is_in_turn, kept, seat_base, seat_number, seen};
ghost use Rattle.pp_turn.specs.Steps.{Waits, Served};

use crate::kept::Kept;
use crate::rule::{Draw, Look, Pass};
use crate::seat::{Seat, TableSeat, Turn};
use crossbeam_utils::Backoff;
use std::sync::Wait;

/// Where the ticket that is drawn stands, and where the one that is served.
const TICKET: usize = 0;

const SERVING: usize = 1;

/// From this ticket on no turn comes.
const NO_TURN: u64 = 1 << 63;

impl<T: Kept + Drop> Turn<T> {
    /// One look at which ticket is served. True where it is this one, and then the seat has the value.
    fn is_served(&self, seat: &mut TableSeat<T>, ticket: u64) -> bool
        requires { (seat.old.table_id ≡ self.now.0) × (ticket < 2 ^ 63) × Waits seat.old.me ticket }
        ensures id { seat.new.table_id ≡ seat.old.table_id }
        ensures seat { MatchBool result (Served T.log T.bearer T.base seat.old.me seat.new.me) (seat.new.me ≡ seat.old.me) }
    {
        self.table.shared.load::<Look>(seat, SERVING) == ticket
    }

    /// Looks until the ticket is served. Between two looks it pauses, and after some it yields its processor.
    fn wait<R: Wait>(&self, rt: &R, seat: &mut TableSeat<T>, ticket: u64)
        requires { (seat.old.table_id ≡ self.now.0) × Waits seat.old.me ticket }
        ensures { (seat.new.table_id ≡ seat.old.table_id) × Served T.log T.bearer T.base seat.old.me seat.new.me }
    {
        let pause = Backoff::new();
        for _ in rt.forever() {
            if ticket < NO_TURN && self.is_served(seat, ticket) {
                return;
            }
            pause.snooze();
        }
        unreachable!()
    }

    /// Waits for the turn, and takes the value. Its log is what the seat has seen, and then entries of others.
    pub fn enter<R: Wait>(&self, rt: &R, seat: &mut Seat<T>) -> T
        requires { IsSeatOf self.now seat.old × (is_in_turn seat.old ≡ false) }
        ensures seat { SameSeat seat.old seat.new × (seen seat.new ≡ seen seat.old) }
        ensures turn { (is_in_turn seat.new ≡ true) × (kept seat.new ≡ T.log result) }
        ensures base { Some (T.base result) ≡ seat_base seat.old }
        ensures log { Later T.bearer (seat_number seat.old) (seen seat.old) (T.log result) }
    {
        let ticket = self
            .table
            .shared
            .fetch_add::<Draw>(&mut seat.seat, TICKET, 1);
        self.wait(rt, &mut seat.seat, ticket);
        let Some(value) = self.table.shared.exchange(&mut seat.seat, 0, None) else {
            unreachable!()
        };
        value
    }

    /// Gives the value back, with the log that `enter` gave or one entry of this seat more, and ends the turn.
    pub fn leave(&self, seat: &mut Seat<T>, value: T)
        requires seat { IsSeatOf self.now seat.old × (is_in_turn seat.old ≡ true) }
        requires base { Some (T.base value) ≡ seat_base seat.old }
        requires log { Adds T.bearer (seat_number seat.old) (kept seat.old) (T.log value) }
        ensures seat { SameSeat seat.old seat.new }
        ensures turn { (is_in_turn seat.new ≡ false) × (seen seat.new ≡ T.log value) }
    {
        let shared = &self.table.shared;
        let None = shared.exchange(&mut seat.seat, 0, Some(value)) else {
            unreachable!()
        };
        shared.fetch_add::<Pass>(&mut seat.seat, SERVING, 1);
    }
}
