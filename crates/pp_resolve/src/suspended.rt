//! Goals that are suspended because they wait.
ghost use Rattle.std.specs.Prelude.{◌≡◌, ◌<◌, ◌++◌, [], ◌∷◌, false, length, take, OnOk, OnErr};
ghost use Rattle.pp_resolve.specs.Suspensions.{is_among, AreOrdered};

use crate::history::Rest;
use std::alloc::{AllocError, Global};

/// The first goal of these, and a number above its variables and those of the goals that were suspended before it.
#[derive(Clone, Copy, Debug, PartialEq, Eq)]
pub(crate) struct Suspension {
    pub(crate) rest: Rest,
    pub(crate) below: usize,
}

/// Goals in the order in which they were suspended, and the places of those that were done since. A place that is
/// done stands in `done` at its own entry of `order`; other entries of `order` may have any value, so that none has
/// to be put back where the lists are cut (sparse sets: Briggs and Torczon, 1993).
#[derive(Debug, Drop)]
pub(crate) struct Suspended {
    pub(crate) goals: Vec<Suspension>,
    pub(crate) done: Vec<usize>,
    pub(crate) order: Vec<usize>,
}

impl Suspended {
    /// None yet.
    pub(crate) fn new(alloc: Global) -> Suspended
        ensures ordered { AreOrdered result }
        ensures goals { result.goals.items ≡ [] }
        ensures done { result.done.items ≡ [] }
    {
        Suspended {
            goals: Vec::new(alloc),
            done: Vec::new(alloc),
            order: Vec::new(alloc),
        }
    }

    /// Whether the goal at this place is done.
    pub(crate) fn is_done(&self, at: usize) -> bool
        requires ordered { AreOrdered self.now }
        ensures { result ≡ is_among at self.now.done.items }
    {
        let Some(place) = self.order.get(at) else {
            return false;
        };
        match self.done.get(*place) {
            None => false,
            Some(done) => *done == at,
        }
    }

    /// Makes room in `order` for one goal more.
    fn make_room(&mut self) -> Result<(), AllocError>
        requires ordered { AreOrdered self.old }
        ensures ordered { AreOrdered self.new }
        ensures done { self.new.done.items ≡ self.old.done.items }
        ensures goals { self.new.goals.items ≡ self.old.goals.items }
        ensures room { OnOk result (length self.new.goals.items < length self.new.order.items) }
    {
        if self.order.len() > self.goals.len() {
            return Ok(());
        }
        self.order.push(0)?;
        Ok(())
    }

    /// One goal more, behind the others.
    pub(crate) fn push(&mut self, goal: Suspension) -> Result<(), AllocError>
        requires ordered { AreOrdered self.old }
        ensures ordered { AreOrdered self.new }
        ensures done { self.new.done.items ≡ self.old.done.items }
        ensures goals { OnOk result (self.new.goals.items ≡ self.old.goals.items ++ goal ∷ []) }
        ensures err { OnErr result (self.new.goals.items ≡ self.old.goals.items) }
    {
        self.make_room()?;
        self.goals.push(goal)?;
        Ok(())
    }

    /// The goal at this place is done.
    pub(crate) fn resume(&mut self, at: usize) -> Result<(), AllocError>
        requires ordered { AreOrdered self.old }
        requires within { at < length self.old.goals.items }
        requires undone { is_among at self.old.done.items ≡ false }
        ensures ordered { AreOrdered self.new }
        ensures goals { self.new.goals.items ≡ self.old.goals.items }
        ensures done { OnOk result (self.new.done.items ≡ self.old.done.items ++ at ∷ []) }
        ensures err { OnErr result (self.new.done.items ≡ self.old.done.items) }
    {
        let place = self.done.len();
        self.done.push(at)?;
        self.order[at] = place;
        Ok(())
    }

    /// Only so many goals, and so many that are done.
    pub(crate) fn cut(&mut self, goals: usize, done: usize)
        requires ordered { AreOrdered self.old }
        ensures ordered { AreOrdered self.new }
        ensures goals { self.new.goals.items ≡ take goals self.old.goals.items }
        ensures done { self.new.done.items ≡ take done self.old.done.items }
    {
        self.goals.truncate(goals);
        self.done.truncate(done);
    }
}
