//! The states that a machine can go back to.
ghost use Rattle.std.specs.Prelude.{◌≡◌, ◌<◌, ◌++◌, [], ◌∷◌, false, length, OnOk, OnErr};
ghost use Rattle.pp_resolve.specs.Suspensions.{is_among};
ghost use Rattle.pp_resolve.specs.Kept.{kept_of};
ghost use Rattle.pp_resolve.specs.Frames.{frame_of, frames_of, IsFit, IsTaken};

use crate::suspended::{Suspended, Suspension};
use pp_goal::Act;
use pp_unify::{Bindings, Mark};
use std::alloc::{AllocError, Global};

/// Goals: those between two places of a body, with the numbers of its variables counted from `first`, and the link
/// `next`. The body is that of the clause of this number, or the root goal. Link n + 1 stands at place n, and 0 is
/// no link.
#[derive(Clone, Copy, Debug, PartialEq, Eq)]
pub(crate) struct Rest {
    pub(crate) body: Option<u32>,
    pub(crate) from: u32,
    pub(crate) to: u32,
    pub(crate) first: u32,
    pub(crate) next: u32,
}

/// The state since which the suspended goals before a place are known to wait.
#[derive(Clone, Copy, Debug, PartialEq, Eq)]
pub(crate) struct Waits {
    pub(crate) since: Mark,
    pub(crate) upto: usize,
}

/// The selected goal: the suspended one at a place, or the first one that is left; and what is done with it.
#[derive(Clone, Copy, Debug, PartialEq, Eq)]
pub(crate) struct Selected {
    pub(crate) at: Option<usize>,
    pub(crate) act: Act,
}

/// What a branch still has to do: how many goals are suspended, since when they are known to wait, the goals that are
/// left, and how many calls may follow. Where the selected goal is known it is kept.
#[derive(Clone, Copy, Debug, PartialEq, Eq)]
pub(crate) struct Front {
    pub(crate) waiting: usize,
    pub(crate) waits: Waits,
    pub(crate) rest: Rest,
    pub(crate) depth: u32,
    pub(crate) selected: Option<Selected>,
}

/// A state that was left by a choice: how much of each list was there, and what was to do.
#[derive(Clone, Copy, Debug, PartialEq, Eq)]
pub(crate) struct Choice {
    pub(crate) mark: Mark,
    pub(crate) links: usize,
    pub(crate) suspended: usize,
    pub(crate) done: usize,
    pub(crate) front: Front,
}

/// The bindings, the links of goals, the goals that are suspended, and the choices taken.
#[derive(Debug, Drop)]
pub(crate) struct History {
    pub(crate) bindings: Bindings,
    pub(crate) links: Vec<Rest>,
    pub(crate) suspended: Suspended,
    pub(crate) choices: Vec<Choice>,
}

impl History {
    /// No choice was taken.
    pub(crate) fn new(alloc: Global, bindings: Bindings) -> History
        ensures fit { IsFit result }
        ensures frames { frames_of result ≡ [] }
        ensures bindings { result.bindings ≡ bindings }
        ensures links { result.links.items ≡ [] }
        ensures suspended { result.suspended.goals.items ≡ [] }
        ensures done { result.suspended.done.items ≡ [] }
    {
        History {
            bindings,
            links: Vec::new(alloc),
            suspended: Suspended::new(alloc),
            choices: Vec::new(alloc),
        }
    }

    /// Keeps the present state, to which `back` returns.
    pub(crate) fn save(&mut self, front: Front) -> Result<(), AllocError>
        requires fit { IsFit self.old }
        ensures fit { IsFit self.new }
        ensures saved { OnOk result (frames_of self.new ≡ frame_of self.old front ∷ frames_of self.old) }
        ensures err { OnErr result (frames_of self.new ≡ frames_of self.old) }
        ensures same { kept_of self.new ≡ kept_of self.old }
    {
        let mark = self.bindings.mark();
        let links = self.links.len();
        let suspended = self.suspended.goals.len();
        let done = self.suspended.done.len();
        self.choices.push(Choice {
            mark,
            links,
            suspended,
            done,
            front,
        })?;
        Ok(())
    }

    /// Puts a link behind the others.
    pub(crate) fn link(&mut self, rest: Rest) -> Result<(), AllocError>
        requires fit { IsFit self.old }
        ensures fit { IsFit self.new }
        ensures frames { frames_of self.new ≡ frames_of self.old }
        ensures bindings { self.new.bindings ≡ self.old.bindings }
        ensures suspended { self.new.suspended ≡ self.old.suspended }
        ensures links { OnOk result (self.new.links.items ≡ self.old.links.items ++ rest ∷ []) }
        ensures err { OnErr result (self.new.links.items ≡ self.old.links.items) }
    {
        self.links.push(rest)?;
        Ok(())
    }

    /// Puts a suspended goal behind the others.
    pub(crate) fn suspend(&mut self, goal: Suspension) -> Result<(), AllocError>
        requires fit { IsFit self.old }
        ensures fit { IsFit self.new }
        ensures frames { frames_of self.new ≡ frames_of self.old }
        ensures bindings { self.new.bindings ≡ self.old.bindings }
        ensures links { self.new.links.items ≡ self.old.links.items }
        ensures done { self.new.suspended.done.items ≡ self.old.suspended.done.items }
        ensures goals { OnOk result (self.new.suspended.goals.items ≡ self.old.suspended.goals.items ++ goal ∷ []) }
        ensures err { OnErr result (self.new.suspended.goals.items ≡ self.old.suspended.goals.items) }
    {
        self.suspended.push(goal)?;
        Ok(())
    }

    /// The suspended goal at this place is done.
    pub(crate) fn resume(&mut self, at: usize) -> Result<(), AllocError>
        requires fit { IsFit self.old }
        requires within { at < length self.old.suspended.goals.items }
        requires undone { is_among at self.old.suspended.done.items ≡ false }
        ensures fit { IsFit self.new }
        ensures frames { frames_of self.new ≡ frames_of self.old }
        ensures bindings { self.new.bindings ≡ self.old.bindings }
        ensures links { self.new.links.items ≡ self.old.links.items }
        ensures goals { self.new.suspended.goals.items ≡ self.old.suspended.goals.items }
        ensures choices { self.new.choices ≡ self.old.choices }
        ensures done { OnOk result (self.new.suspended.done.items ≡ self.old.suspended.done.items ++ at ∷ []) }
        ensures err { OnErr result (self.new.suspended.done.items ≡ self.old.suspended.done.items) }
    {
        self.suspended.resume(at)?;
        Ok(())
    }

    /// Returns to the state that was kept last; `None` exactly where none was.
    pub(crate) fn back(&mut self) -> Option<Front>
        requires fit { IsFit self.old }
        ensures fit { IsFit self.new }
        ensures taken { IsTaken self.old self.new result }
    {
        match self.choices.pop() {
            None => None,
            Some(choice) => {
                self.bindings.undo(choice.mark);
                self.links.truncate(choice.links);
                self.suspended.cut(choice.suspended, choice.done);
                Some(choice.front)
            }
        }
    }
}
