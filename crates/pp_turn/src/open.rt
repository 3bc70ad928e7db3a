//! A lock is made, with all its seats.
ghost use Rattle.std.specs.Prelude.{◌≡◌, ◌+◌, ◌<◌, ◌≤◌, ◌∷◌, [], Some, false, IfOk, IfErr, ◌-◌, vec_len};
ghost use Rattle.pp_turn.specs.Locks.{seat_count};
ghost use Rattle.pp_turn.specs.Seats.{IsSeatOf, Rests, AreSeats, is_in_turn, seat_base, seat_number, seat_span, seen};

use crate::kept::Kept;
use crate::rule::Cut;
use crate::seat::{PlainSeat, Seat, Turn};
use crate::view::Key;
use atomic_table::Table;
use std::alloc::Global;
use std::snapshot::Snapshot;

/// There was no memory. The value comes back.
#[derive(Drop)]
pub struct Refused<T> {
    pub value: T,
}

/// The value as the only slot of a table.
fn one_slot<T: Drop>(alloc: Global, value: T) -> Result<Vec<Option<T>>, Refused<T>>
    ensures ok { IfOk result (λ v. v.items ≡ Some value ∷ []) }
    ensures err { IfErr result (λ r. r.value ≡ value) }
{
    let mut slots = Vec::new(alloc);
    match slots.push(Some(value)) {
        Ok(()) => Ok(slots),
        Err(failed) => {
            let Some(value) = failed.value else {
                unreachable!()
            };
            Err(Refused { value })
        }
    }
}

impl<T: Kept + Drop> Turn<T> {
    /// The lock, and one seat that has all numbers.
    fn open(alloc: Global, value: T, seats: u32) -> Result<(Turn<T>, Seat<T>), Refused<T>>
        requires count { (1 ≤ seats) × (seats ≤ 65) }
        requires log { T.log value ≡ [] }
        ensures count { IfOk result (λ t. seat_count t.0 ≡ seats) }
        ensures seat { IfOk result (λ t. Rests t.0 (Some (T.base value)) 0 seats [] t.1) }
        ensures err { IfErr result (λ r. r.value ≡ value) }
    {
        let key = Key {
            value: Snapshot::of(&value),
            seats,
        };
        let slots = one_slot(alloc, value)?;
        match Table::new(alloc, &[0, 0], slots, &key) {
            Ok((table, seat)) => Ok((Turn { table }, PlainSeat { seat })),
            Err(mut refused) => {
                let Some(Some(value)) = refused.slots.pop() else {
                    unreachable!()
                };
                Err(Refused { value })
            }
        }
    }

    /// A lock round the value, and as many seats as are asked for. The seats have the numbers from 0, in order, and the
    /// value's base, and have seen no entry.
    pub fn new(alloc: Global, value: T, seats: u32) -> Result<(Turn<T>, Vec<Seat<T>>), Refused<T>>
        requires count { (1 ≤ seats) × (seats ≤ 65) }
        requires log { T.log value ≡ [] }
        ensures count { IfOk result (λ t. (vec_len t.1 ≡ seats) × (seat_count t.0 ≡ seats)) }
        ensures seats { IfOk result (λ t. AreSeats t.0 (T.base value) t.1.items) }
        ensures refused { IfErr result (λ r. r.value ≡ value) }
    {
        let Ok(mut all) = Vec::with_capacity(alloc, seats as usize) else {
            return Err(Refused { value });
        };
        let (turn, mut last) = Turn::open(alloc, value, seats)?;
        for made in 1..seats {
            let next = turn.another(&mut last);
            all.push_reserved(last);
            last = next;
        }
        all.push_reserved(last);
        Ok((turn, all))
    }

    /// Leaves the seat its first number. The result has the others.
    fn another(&self, seat: &mut Seat<T>) -> Seat<T>
        requires seat { IsSeatOf self.now seat.old × (is_in_turn seat.old ≡ false) }
        requires more { 1 < seat_span seat.old }
        ensures old { Rests self.now (seat_base seat.old) (seat_number seat.old) 1 (seen seat.old) seat.new }
        ensures new { Rests self.now (seat_base seat.old) (seat_number seat.old + 1) (seat_span seat.old - 1) (seen seat.old) result }
    {
        PlainSeat {
            seat: self.table.shared.split_seat::<Cut>(&mut seat.seat),
        }
    }
}
