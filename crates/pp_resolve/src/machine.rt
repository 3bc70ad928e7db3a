//! The machine, as a caller sees it.
ghost use Rattle.std.specs.Prelude.{◌≡◌, ◌+◌, ◌≤◌, [], IfOk, OnErr, IsTrue};
ghost use Rattle.pp_algebra.specs.Covers.{RowCovers};
ghost use Rattle.pp_algebra.specs.Terms.{count};
ghost use Rattle.pp_sld.specs.Leaves.{leaf_row, root};
ghost use Rattle.pp_sld.specs.Ways.{next};
ghost use Rattle.pp_term.specs.Meanings.{program, shape_of};
ghost use Rattle.pp_term.specs.WellFormed.{arguments_of};
ghost use Rattle.pp_walk.specs.Moves.{Stepped, step_cost, IsAtChoice, HasChoice, Chose, Committed, IsNextPlace, IsNext, WentBack};

use crate::engine::Engine;
use pp_clause::Clauses;
use pp_row::Row;
use pp_term::Shape;
use pp_walk::{Event, Next, SearchMachine, Steps};
use std::alloc::{AllocError, Global};
use std::marker::Model;
use std::sync::ledger::Ledger;

/// A walk through the search tree of a goal. A contract sees its clauses, the configuration at which it stands, and
/// those to which it can go back.
#[derive(Drop)]
pub struct Machine<'a> {
    engine: Engine<'a>,
}

impl<'a> Model for Machine<'a> {
    ghost use Rattle.pp_resolve.specs.Engines.{IsGood};
    ghost use Rattle.pp_resolve.specs.Machines.{Searching, searching_of, searching_code};

    ghost Value = { Searching };

    ghost coded = { searching_code };

    ghost view = { λ m. searching_of m.engine };

    ghost invariant = { λ m. IsGood m.engine };
}

impl<'a> Machine<'a> {
    /// At the root of the search of a goal under its face.
    pub fn start(
        alloc: Global,
        clauses: &'a Clauses,
        shape: Shape,
        face: &Row,
        depth: u32,
    ) -> Result<Machine<'a>, AllocError>
        requires arguments { count face.now.columns ≡ arguments_of shape }
        ensures clauses { IfOk result (λ m. m.clauses ≡ clauses.now) }
        ensures here { IfOk result (λ m. m.place.here ≡ root (shape_of shape) face.now depth) }
        ensures above { IfOk result (λ m. m.place.above ≡ []) }
    {
        Ok(Machine {
            engine: Engine::start(alloc, clauses, shape, face, depth)?,
        })
    }

    /// Makes one step. Only a built-in that holds moves the machine, and only a built-in counts.
    pub fn step<L: Ledger>(&mut self, steps: &mut Steps<L>) -> Result<Event, AllocError>
        ensures clauses { self.new.clauses ≡ self.old.clauses }
        ensures stepped { IfOk result (λ e. Stepped (program self.old.clauses) self.old.place e self.new.place) }
        ensures err { OnErr result (self.new.place ≡ self.old.place) }
        ensures steps { IfOk result (λ _.
            steps.new ≡ steps.old + step_cost (next (program self.old.clauses) self.old.place.here)) }
        ensures at_most { OnErr result
            (steps.new ≤ steps.old + step_cost (next (program self.old.clauses) self.old.place.here)) }
    {
        self.engine.step(steps)
    }

    /// Goes the way of the alternative at a place, to which `back` returns; false where it fails.
    pub fn choose<L: Ledger>(&mut self, at: u64, steps: &mut Steps<L>) -> Result<bool, AllocError>
        requires choice { HasChoice (program self.old.clauses) self.old.place.here at }
        ensures clauses { self.new.clauses ≡ self.old.clauses }
        ensures chose { IfOk result (λ goes. Chose (program self.old.clauses) self.old.place at goes self.new.place) }
        ensures err { OnErr result (self.new.place ≡ self.old.place) }
        ensures steps { steps.new ≡ steps.old + 1 }
    {
        self.engine.choose(at, steps)
    }

    /// Returns to the last choice taken; false exactly where none was.
    pub fn back(&mut self) -> bool
        ensures clauses { self.new.clauses ≡ self.old.clauses }
        ensures back { WentBack self.old.place result self.new.place }
    {
        self.engine.back()
    }

    /// The next place, from this one on, whose alternative is to be tried. It takes no memory.
    pub fn place_from(&self, from: u64) -> Option<u64>
        requires choice { IsAtChoice (program self.now.clauses) self.now.place.here }
        ensures { IsNextPlace (program self.now.clauses) self.now.place.here from result }
    {
        self.engine.place_from(from)
    }

    /// The same, and whether a look at a few places behind it tells that it is the last one.
    pub fn next_from(&self, from: u64) -> Next
        requires choice { IsAtChoice (program self.now.clauses) self.now.place.here }
        ensures { IsNext (program self.now.clauses) self.now.place.here from result }
    {
        self.engine.next_from(from)
    }

    /// Goes the way of the alternative at a place for good: `back` goes to the choice above. False where it fails,
    /// and then the machine stands where it stood.
    pub fn commit<L: Ledger>(&mut self, at: u64, steps: &mut Steps<L>) -> Result<bool, AllocError>
        requires choice { HasChoice (program self.old.clauses) self.old.place.here at }
        ensures clauses { self.new.clauses ≡ self.old.clauses }
        ensures committed { IfOk result
            (λ goes. Committed (program self.old.clauses) self.old.place at goes self.new.place) }
        ensures err { OnErr result (self.new.place ≡ self.old.place) }
        ensures steps { steps.new ≡ steps.old + 1 }
    {
        self.engine.commit(at, steps)
    }

    /// The row that the branch has come to.
    pub fn row(&self) -> Result<Row, AllocError>
        ensures { IfOk result (λ row. row ≡ leaf_row self.now.place.here) }
    {
        self.engine.row()
    }

    /// Whether the row is known to cover the one that the branch has come to, which isn't made.
    pub fn is_covered(&mut self, by: &Row) -> Result<bool, AllocError>
        ensures clauses { self.new.clauses ≡ self.old.clauses }
        ensures place { self.new.place ≡ self.old.place }
        ensures covers { IfOk result (λ is. IsTrue is → RowCovers by.now (leaf_row self.old.place.here)) }
    {
        self.engine.is_covered(by)
    }
}

impl<'a> SearchMachine for Machine<'a> {
    ghost use Rattle.pp_term.specs.Meanings.{program};

    ghost clauses = { λ m. program m.clauses };

    ghost place = { λ m. m.place };

    fn step<L: Ledger>(&mut self, steps: &mut Steps<L>) -> Result<Event, AllocError> {
        Machine::step(self, steps)
    }

    fn choose<L: Ledger>(&mut self, at: u64, steps: &mut Steps<L>) -> Result<bool, AllocError> {
        Machine::choose(self, at, steps)
    }

    fn place_from(&self, from: u64) -> Option<u64> {
        Machine::place_from(self, from)
    }

    fn next_from(&self, from: u64) -> Next {
        Machine::next_from(self, from)
    }

    fn commit<L: Ledger>(&mut self, at: u64, steps: &mut Steps<L>) -> Result<bool, AllocError> {
        Machine::commit(self, at, steps)
    }

    fn back(&mut self) -> bool {
        Machine::back(self)
    }

    fn row(&self) -> Result<Row, AllocError> {
        Machine::row(self)
    }

    fn is_covered(&mut self, by: &Row) -> Result<bool, AllocError> {
        Machine::is_covered(self, by)
    }
}
