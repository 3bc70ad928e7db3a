//! Seats are joined, and the last one takes the value out of the lock.
ghost use Rattle.std.specs.Prelude.{◌≡◌, ◌+◌, Some, false};
ghost use Rattle.pp_turn.specs.Locks.{seat_count};
ghost use Rattle.pp_turn.specs.Logs.{Ordered, longer};
ghost use Rattle.pp_turn.specs.Seats.{IsSeatOf, Rests, is_in_turn, seat_base, seat_number, seat_span, seen};

use crate::kept::Kept;
use crate::rule::{Compare, Meet};
use crate::seat::{PlainSeat, Seat, Turn};

impl<T: Kept + Drop> Turn<T> {
    /// Makes one seat of two, where the other's numbers follow. Of their logs one begins the other, and the longer one
    /// is kept.
    pub fn join_seat(&self, into: &mut Seat<T>, other: Seat<T>)
        requires into { IsSeatOf self.now into.old × (is_in_turn into.old ≡ false) }
        requires other { IsSeatOf self.now other × (is_in_turn other ≡ false) }
        requires next { seat_number other ≡ seat_number into.old + seat_span into.old }
        ensures seat { Rests self.now (seat_base into.old) (seat_number into.old) (seat_span into.old + seat_span other) (longer (seen into.old) (seen other)) into.new }
        ensures logs { Ordered (seen into.old) (seen other) }
    {
        let PlainSeat { seat: other } = other;
        let shared = &self.table.shared;
        shared.join_seat::<Meet>(&mut into.seat, other);
        shared.load::<Compare>(&mut into.seat, 0);
    }

    /// The value, once one seat has all numbers. Its log is what that seat has seen.
    pub fn close(self, seat: Seat<T>) -> T
        requires seat { IsSeatOf self seat × (is_in_turn seat ≡ false) }
        requires all { seat_span seat ≡ seat_count self }
        ensures base { Some (T.base result) ≡ seat_base seat }
        ensures log { T.log result ≡ seen seat }
    {
        let Turn { table } = self;
        let PlainSeat { seat } = seat;
        let mut closed = table.close_with(seat);
        let value = closed.take(0);
        closed.free();
        let Some(value) = value else { unreachable!() };
        value
    }
}
