//! The stop word is made, loaded and raised.
ghost use Rattle.std.specs.Prelude.{◌≡◌, ◌≤◌, ◌+◌, true, cond, IfOk, All, vec_len};
ghost use Rattle.pp_stop.specs.Words.{up_of};
ghost use Rattle.pp_stop.specs.Seats.{IsSeatOf, IsNew, SameLoads, StillSeen, has_seen, late, loads, saw_dry, saw_settled};

use crate::rule::{Cut, Look, RaiseDry, RaiseSettled};
use crate::seat::{Stop, StopSeat};
use crate::up::{DRY, SETTLED, Up, read};
use atomic_table::Table;
use pp_space::{Settled, Space};
use std::alloc::{AllocError, Global};

impl Stop {
    /// The word, and one seat.
    fn open(alloc: Global) -> Result<(Stop, StopSeat), AllocError>
        ensures { IfOk result (λ t. IsNew t.0 t.1) }
    {
        let (table, seat) = Table::of_words(alloc, &[0], &())?;
        Ok((Stop { table }, StopSeat { seat }))
    }

    /// One seat more.
    fn another(&self, seat: &mut StopSeat) -> StopSeat
        requires { IsNew self.now seat.old }
        ensures old { IsNew self.now seat.new }
        ensures new { IsNew self.now result }
    {
        StopSeat {
            seat: self.table.shared.split_seat::<Cut>(&mut seat.seat),
        }
    }

    /// The word with no bit up, and as many seats as are asked for, which have seen nothing.
    pub fn new(alloc: Global, seats: u32) -> Result<(Stop, Vec<StopSeat>), AllocError>
        requires { (1 ≤ seats) × (seats ≤ 65) }
        ensures count { IfOk result (λ t. vec_len t.1 ≡ seats) }
        ensures seats { IfOk result (λ t. All (IsNew t.0) t.1.items) }
    {
        let mut all = Vec::with_capacity(alloc, seats as usize)?;
        let (stop, mut first) = Stop::open(alloc)?;
        for made in 1..seats {
            all.push_reserved(stop.another(&mut first));
        }
        all.push_reserved(first);
        Ok((stop, all))
    }

    /// One load of the word. It answers what the seat has seen by then, and a bit once seen is seen again.
    pub fn is_up(&self, seat: &mut StopSeat) -> Up
        requires { IsSeatOf self.now seat.old }
        ensures seat { IsSeatOf self.now seat.new }
        ensures up { result ≡ up_of (saw_settled seat.new) (saw_dry seat.new) }
        ensures seen { StillSeen seat.old seat.new }
        ensures loads { loads seat.new ≡ loads seat.old + 1 }
        ensures late { late seat.new ≡ late seat.old + cond (has_seen seat.old) 1 0 }
    {
        read(self.table.shared.load::<Look>(&mut seat.seat, 0))
    }

    /// Raises the bit of a settled search, for whoever can show a settled value.
    pub fn raise_settled<S: Space>(&self, seat: &mut StopSeat, _shown: &Settled<'_, S>)
        requires { IsSeatOf self.now seat.old }
        ensures seat { IsSeatOf self.now seat.new }
        ensures raised { saw_settled seat.new ≡ true }
        ensures other { saw_dry seat.new ≡ saw_dry seat.old }
        ensures loads { SameLoads seat.old seat.new }
    {
        self.table
            .shared
            .fetch_or::<RaiseSettled>(&mut seat.seat, 0, SETTLED);
    }

    /// Raises the bit of a search that found no memory.
    pub fn raise_dry(&self, seat: &mut StopSeat)
        requires { IsSeatOf self.now seat.old }
        ensures seat { IsSeatOf self.now seat.new }
        ensures raised { saw_dry seat.new ≡ true }
        ensures other { saw_settled seat.new ≡ saw_settled seat.old }
        ensures loads { SameLoads seat.old seat.new }
    {
        self.table
            .shared
            .fetch_or::<RaiseDry>(&mut seat.seat, 0, DRY);
    }
}
