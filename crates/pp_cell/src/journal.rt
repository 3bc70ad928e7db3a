//! The whole journal, once the workers are done.
ghost use Rattle.std.specs.Prelude.{◌≡◌, ◌≤◌, ℕ, Some, false, slice_get, vec_len, map};
ghost use Rattle.pp_turn.specs.Locks.{seat_count};
ghost use Rattle.pp_turn.specs.Seats.{IsSeatOf, is_in_turn, seat_span, seen};
ghost use Rattle.pp_cell.specs.Gathers.{Gathers};
ghost use Rattle.pp_cell.specs.Passes.{ArePasses, pass_journal};

use crate::book::Book;
use crate::cell::{Cell, Pass};
use pp_core::Entry;
use pp_space::Space;
use pp_turn::{Seat, Turn};

/// One seat, of those of all passes.
fn gather<'a, S: Space>(turn: &Turn<Book<'a, S>>, mut passes: Vec<Pass<'a, S>>) -> Seat<Book<'a, S>>
    requires some { 1 ≤ vec_len passes }
    requires passes { (i : ℕ) (p : _) → slice_get passes.items i ≡ Some p → IsSeatOf turn.now p.seat × (p.number ≡ i) }
    ensures seat { IsSeatOf turn.now result × (is_in_turn result ≡ false) × (seat_span result ≡ vec_len passes.entry) }
    ensures logs { Gathers (map pass_journal passes.entry.items) (vec_len passes.entry) (seen result) }
{
    let count = passes.len();
    let Pass {
        seat: mut into,
        space: _,
        root: _,
        number: _,
    } = passes.remove(0);
    for joined in 1..count {
        let Pass {
            seat,
            space: _,
            root: _,
            number: _,
        } = passes.remove(0);
        turn.join_seat(&mut into, seat);
    }
    into
}

impl<'a, S: Space> Cell<'a, S> {
    /// The whole journal, for whoever has all the cell's passes back. Each pass's journal begins it, and that of one of
    /// them is the whole. It takes no memory and doesn't wait.
    pub fn journal(self, passes: Vec<Pass<'a, S>>) -> Vec<Entry<S>>
        requires some { 1 ≤ vec_len passes }
        requires passes { ArePasses self passes.items }
        ensures { Gathers (map pass_journal passes.entry.items) (vec_len passes.entry) result.items }
    {
        let Cell { turn } = self;
        let seat = gather(&turn, passes);
        let Book { core: _, entries } = turn.close(seat);
        entries
    }
}
