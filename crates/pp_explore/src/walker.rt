//! A search machine, and the path at which it stands.
ghost use Rattle.std.specs.Prelude.{◌≡◌, ◌+◌, ◌-◌, ◌≤◌, [], take, length, IfOk, OnErr};
ghost use Rattle.pp_walk.specs.Moves.{HasChoice};
ghost use Rattle.pp_explore.specs.Standing.{StandsOver, StaysOver, Took, back_by};

use pp_walk::{SearchMachine, Steps};
use std::alloc::{AllocError, Global};
use std::sync::ledger::Ledger;

/// A search machine, and the path from the root at which it stands: the places taken, one for each choice above.
#[derive(Drop)]
pub struct Walker<M: SearchMachine> {
    pub machine: M,
    pub path: Vec<u64>,
}

impl<M: SearchMachine> Walker<M> {
    /// At the root, where the machine stands. It takes no memory.
    pub fn new(alloc: Global, machine: M) -> Walker<M>
        requires root { (M.place machine).above ≡ [] }
        ensures machine { result.machine ≡ machine }
        ensures path { result.path.items ≡ [] }
        ensures stands { StandsOver (M.clauses machine) (M.place machine).here (M.place machine) [] }
    {
        Walker {
            machine,
            path: Vec::new(alloc),
        }
    }

    /// Goes back until no more than so many choices are taken.
    pub(crate) fn back_to(&mut self, depth: usize)
        ensures clauses { M.clauses self.new.machine ≡ M.clauses self.old.machine }
        ensures path { self.new.path.items ≡ take depth self.old.path.items }
        ensures place { M.place self.new.machine
            ≡ back_by (length self.old.path.items - depth) (M.place self.old.machine).above
            (M.place self.old.machine).here }
        ensures stands { StaysOver (M.clauses self.old.machine) (M.place self.old.machine) self.old.path.items
            (M.place self.new.machine) self.new.path.items }
    {
        while self.path.len() > depth {
            self.path.pop();
            self.machine.back();
        }
    }

    /// Takes the alternative at this place; false where it fails.
    pub(crate) fn take<L: Ledger>(
        &mut self,
        at: u64,
        steps: &mut Steps<L>,
    ) -> Result<bool, AllocError>
        requires { HasChoice (M.clauses self.old.machine) (M.place self.old.machine).here at }
        ensures clauses { M.clauses self.new.machine ≡ M.clauses self.old.machine }
        ensures took { IfOk result (λ goes.
            Took (M.clauses self.old.machine) (M.place self.old.machine) self.old.path.items at goes
            (M.place self.new.machine) self.new.path.items) }
        ensures place { OnErr result (M.place self.new.machine ≡ M.place self.old.machine) }
        ensures path { OnErr result (self.new.path.items ≡ self.old.path.items) }
        ensures steps { IfOk result (λ _. steps.new ≡ steps.old + 1) }
        ensures at_most { steps.new ≤ steps.old + 1 }
    {
        self.path.reserve(1)?;
        if !self.machine.choose(at, steps)? {
            return Ok(false);
        }
        self.path.push_reserved(at);
        Ok(true)
    }
}
