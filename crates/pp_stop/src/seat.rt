//! The stop word, and the seats at it.
ghost use Rattle.std.specs.Prelude.{◌≡◌, []};

use crate::rule::Rule;
use crate::view::View;
use atomic_table::{Seat, Table};
use std::alloc::Global;

/// The stop word of a search. Threads share it.
#[derive(Drop)]
pub struct Stop {
    pub(crate) table: Table<(), View, (), Rule, Global>,
    ghost one_word: { table.shared.table_id.words ≡ 1 },
}

/// What one thread knows of the stop word. It has no bytes. `specs/Seats.antt` says what it is seen as.
#[derive(Drop)]
pub struct StopSeat {
    pub(crate) seat: Seat<(), View>,
    ghost empty: { seat.me.1 ≡ [] },
}
