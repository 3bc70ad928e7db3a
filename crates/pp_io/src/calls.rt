// The count of calls, of which some are to fail.
ghost use Rattle.std.specs.Prelude.{◌≡◌, ◌↔◌, ◌≤◌, IsTrue, IfOk};
ghost use Rattle.pp_io.specs.Memory.{CallCounts, IsNextFailing, after_call, after_fault};

use super::ends::Failed;
use std::alloc::AllocError;
use std::marker::Model;

#[derive(Debug, Drop)]
pub(crate) struct Calls {
    failing: Vec<u64>,
    made: u64,
    faults: u64,
}

impl Model for Calls {
    ghost Value = { CallCounts };

    ghost view = { λ c. record { failing = c.failing.items; made = c.made; faults = c.faults } };
}

impl Calls {
    // No call yet; those of these numbers, from 1, are to fail.
    pub(crate) fn new(failing: Vec<u64>) -> Calls
        ensures { result ≡ record { failing = failing.items; made = 0; faults = 0 } }
    {
        Calls {
            failing,
            made: 0,
            faults: 0,
        }
    }

    pub(crate) fn copy(&self) -> Result<Calls, AllocError>
        ensures { IfOk result (λ calls. calls ≡ self.now) }
    {
        Ok(Calls {
            failing: Vec::from_slice(*self.failing.allocator(), &self.failing)?,
            made: self.made,
            faults: self.faults,
        })
    }

    // Whether the next call is to fail.
    pub(crate) fn is_next_failing(&self) -> bool
        ensures { IsTrue result ↔ IsNextFailing self.now }
    {
        self.failing.contains(&self.made.saturating_add(1))
    }

    // Counts a call.
    pub(crate) fn count(&mut self)
        ensures { self.new ≡ after_call self.old }
    {
        self.made = self.made.saturating_add(1);
    }

    // Counts a call that fails.
    pub(crate) fn fail(&mut self) -> Failed
        ensures rises { self.old.faults ≤ self.new.faults }
        ensures after { self.new ≡ after_fault self.old }
    {
        self.made = self.made.saturating_add(1);
        self.faults = self.faults.saturating_add(1);
        Failed
    }
}
