//! A search that threads share, and the passes to it.
ghost use Rattle.std.specs.Prelude.{◌≡◌, false, Some};
ghost use Rattle.pp_turn.specs.Seats.{is_in_turn, seat_base, seat_number, seat_span, seen};
ghost use Rattle.pp_core.specs.Runs.{opening};
ghost use Rattle.pp_core.specs.Journals.{replay, AreSound};
ghost use Rattle.pp_cell.specs.Entries.{WereAccepted};

use crate::book::Book;
use pp_space::Space;
use pp_turn::{Seat, Turn};

/// A core with its journal, behind a lock by turns.
#[derive(Drop)]
pub struct Cell<'a, S: Space> {
    pub(crate) turn: Turn<Book<'a, S>>,
}

/// The right to report and to look, under a number of its own. `specs/Passes.antt` says what it is seen as. The journal
/// that it saw is one that came about, and the value that it saw is one of the space's.
#[derive(Drop)]
pub struct Pass<'a, S: Space> {
    pub(crate) seat: Seat<Book<'a, S>>,
    pub(crate) space: &'a S,
    pub(crate) root: S::Task,
    pub(crate) number: u32,
    ghost numbered: { seat_number seat ≡ number },
    ghost one: { seat_span seat ≡ 1 },
    ghost out: { is_in_turn seat ≡ false },
    ghost based: { ∥ seat_base seat ≡ Some record { space = space.now; root = root } ∥₁ },
    pub ghost sound: { ∥ AreSound S.are_same (S.joined space.now) (S.worth space.now) (S.fits space.now) (seen seat) (opening (S.bottom space.now) root) ∥₁ },
    pub ghost taken: { ∥ WereAccepted S.are_same (S.joined space.now) (seen seat) (opening (S.bottom space.now) root) ∥₁ },
    pub ghost fits: { ∥ S.fits space.now (replay S.are_same (S.joined space.now) (seen seat) (opening (S.bottom space.now) root)).value ∥₁ },
}

impl<'a, S: Space> Pass<'a, S> {
    /// Its number, under which its entries stand in the journal.
    pub fn number(&self) -> u32
        ensures { result ≡ self.now.number }
    {
        self.number
    }
}
