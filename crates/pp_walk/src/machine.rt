//! What a search machine does.

use crate::{Event, Next, Steps};
use pp_row::Row;
use std::alloc::AllocError;
use std::sync::ledger::Ledger;

/// It stands at a configuration of a search, below the choices that it took, and moves by one reduction at a time.
///
/// A reduction is a built-in that is performed or an alternative that is tried, and each counts once on the steps
/// that the call is lent. After want of memory the machine stands where it stood.
pub trait SearchMachine {
    ghost use Rattle.std.specs.Prelude.{◌≡◌, ℕ, ◌+◌, ◌≤◌, IfOk, OnErr, IsTrue};
    ghost use Rattle.pp_algebra.specs.Covers.{RowCovers};
    ghost use Rattle.pp_sld.specs.Goals.{Program};
    ghost use Rattle.pp_sld.specs.Ways.{next};
    ghost use Rattle.pp_sld.specs.Leaves.{leaf_row};
    ghost use Rattle.pp_walk.specs.Places.{Place};
    ghost use Rattle.pp_walk.specs.Moves.{Stepped, step_cost, IsAtChoice, HasChoice, Chose, IsNextPlace, Committed, IsNext, WentBack};

    ghost clauses: { Self → Program };

    ghost place: { Self → Place };

    /// Makes one step. Only a built-in that holds moves the machine, and only a built-in counts.
    fn step<L: Ledger>(&mut self, steps: &mut Steps<L>) -> Result<Event, AllocError>
        ensures clauses { clauses self.new ≡ clauses self.old }
        ensures stepped { IfOk result (λ e. Stepped (clauses self.old) (place self.old) e (place self.new)) }
        ensures err { OnErr result (place self.new ≡ place self.old) }
        ensures steps { IfOk result (λ _.
            steps.new ≡ steps.old + step_cost (next (clauses self.old) (place self.old).here)) }
        ensures at_most { OnErr result
            (steps.new ≤ steps.old + step_cost (next (clauses self.old) (place self.old).here)) };

    /// Takes the alternative at this place of the selected goal; false where it fails, and then the machine stands
    /// where it stood.
    fn choose<L: Ledger>(&mut self, at: u64, steps: &mut Steps<L>) -> Result<bool, AllocError>
        requires { HasChoice (clauses self.old) (place self.old).here at }
        ensures clauses { clauses self.new ≡ clauses self.old }
        ensures chose { IfOk result (λ goes. Chose (clauses self.old) (place self.old) at goes (place self.new)) }
        ensures err { OnErr result (place self.new ≡ place self.old) }
        ensures steps { IfOk result (λ _. steps.new ≡ steps.old + 1) }
        ensures at_most { OnErr result (steps.new ≤ steps.old + 1) };

    /// The next place, from this one on, whose alternative may lead on; each place that it passes over fails. It
    /// takes no memory, and what it passes over isn't counted.
    fn place_from(&self, from: u64) -> Option<u64>
        requires { IsAtChoice (clauses self.now) (place self.now).here }
        ensures { IsNextPlace (clauses self.now) (place self.now).here from result };

    /// The same, with a look at a few places behind it.
    fn next_from(&self, from: u64) -> Next
        requires { IsAtChoice (clauses self.now) (place self.now).here }
        ensures { IsNext (clauses self.now) (place self.now).here from result };

    /// Takes the alternative at this place of the selected goal for good: `back` goes to the choice above, if there
    /// is one. False where it fails, and then the machine stands where it stood.
    fn commit<L: Ledger>(&mut self, at: u64, steps: &mut Steps<L>) -> Result<bool, AllocError>
        requires { HasChoice (clauses self.old) (place self.old).here at }
        ensures clauses { clauses self.new ≡ clauses self.old }
        ensures committed { IfOk result
            (λ goes. Committed (clauses self.old) (place self.old) at goes (place self.new)) }
        ensures err { OnErr result (place self.new ≡ place self.old) }
        ensures steps { IfOk result (λ _. steps.new ≡ steps.old + 1) }
        ensures at_most { OnErr result (steps.new ≤ steps.old + 1) };

    /// Returns to the choice taken last; false exactly where none was taken. It takes no memory.
    fn back(&mut self) -> bool
        ensures clauses { clauses self.new ≡ clauses self.old }
        ensures back { WentBack (place self.old) result (place self.new) };

    /// The row that the branch has come to.
    fn row(&self) -> Result<Row, AllocError>
        ensures { IfOk result (λ row. row ≡ leaf_row (place self.now).here) };

    /// Whether the row is known to cover the one that the branch has come to, which isn't made.
    fn is_covered(&mut self, by: &Row) -> Result<bool, AllocError>
        ensures clauses { clauses self.new ≡ clauses self.old }
        ensures place { place self.new ≡ place self.old }
        ensures covers { IfOk result (λ is. IsTrue is → RowCovers by.now (leaf_row (place self.old).here)) };
}
