//! The lock, and the seats at it.
ghost use Rattle.std.specs.Prelude.{◌≡◌, ◌<◌, [], ◌∷◌, true, false, None};

use crate::kept::Kept;
use crate::rule::Rule;
use crate::view::{Key, View};
use atomic_table::Table;
use std::alloc::Global;
use std::marker::Model;

pub(crate) type TableSeat<T> = atomic_table::Seat<
    Option<T>,
    View<<T as Kept>::Entry, <T as Kept>::Base>,
>;

/// A value that one seat has at a time, in the order in which tickets are drawn.
#[derive(Drop)]
pub struct Turn<T: Kept> {
    pub(crate) table: Table<Option<T>, View<T::Entry, T::Base>, Key<T>, Rule, Global>,
}

impl<T: Kept> Model for Turn<T> {
    ghost use Rattle.std.specs.Prelude.{◌≡◌};
    ghost use base.Stored.{coded×, coded_ℕ};
    ghost use Rattle.atomic_table.specs.Seated.{table_id_coded};
    ghost use Rattle.pp_turn.specs.Locks.{Lock};

    ghost Value = { Lock };

    ghost coded = { coded× table_id_coded coded_ℕ };

    ghost view = { λ t. (t.table.shared.table_id, t.table.shared.key.seats) };

    ghost invariant = { λ t. (t.table.shared.table_id.words ≡ 2) × (t.table.shared.table_id.slots ≡ 1) };
}

/// The right to draw tickets. It has no bytes. `specs/Seats.antt` says what it is seen as.
#[derive(Drop)]
pub struct PlainSeat<T, L, B> {
    pub(crate) seat: atomic_table::Seat<Option<T>, View<L, B>>,
    ghost some_number: { 0 < seat.me.0.span },
    ghost waits: { seat.me.0.waits ≡ seat.me.0.in_turn },
    ghost out: { seat.me.0.in_turn ≡ false → seat.me.1 ≡ [] },
    ghost taken: { seat.me.0.in_turn ≡ true → seat.me.1 ≡ (0, None) ∷ [] },
}

pub type Seat<T> = PlainSeat<T, <T as Kept>::Entry, <T as Kept>::Base>;
