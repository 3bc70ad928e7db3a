//! What is done with a goal is done on the bindings.
ghost use Rattle.std.specs.Prelude.{◌≡◌, ℕ, false, IfOk, OnErr};
ghost use Rattle.pp_algebra.specs.Terms.{count};
ghost use Rattle.pp_row.specs.Reading.{forest};
ghost use Rattle.pp_sld.specs.Goals.{Goal};
ghost use Rattle.pp_unify.specs.States.{present, IsLonger};
ghost use Rattle.pp_unify.specs.Forests.{AreDecided};
ghost use Rattle.pp_goal.specs.Arguments.{IsLent, terms_of};
ghost use Rattle.pp_goal.specs.Acts.{IsReady, items};
ghost use Rattle.pp_resolve.specs.declared.history.Rest.{Rest as RestValue};
ghost use Rattle.pp_resolve.specs.Events.{Solved};
ghost use Rattle.pp_resolve.specs.Engines.{place_of, IsGood, IsSameSearch, IsPlaceOf, BeginsAt, IsGoalAt};

use crate::engine::Engine;
use crate::root::goal_at;
use pp_clause::GoalAt;
use pp_goal::{Act, perform};
use pp_unify::Bindings;
use std::alloc::AllocError;

/// Does what is done with a goal; false where nothing solves it, and then nothing is changed.
fn solve(
    bindings: &mut Bindings,
    goal: &GoalAt<'_>,
    first: u32,
    act: Act,
) -> Result<bool, AllocError>
    requires lent { IsLent (present bindings.old) goal.now first }
    requires ready { IsReady (count (forest goal.now.arguments.now)) act }
    ensures decided { IfOk result (λ b.
        AreDecided (present bindings.old) (items goal.now.kind (terms_of goal.now first) act) b
        (present bindings.new)) }
    ensures kept { IsLonger bindings.old bindings.new }
    ensures stays { IfOk result (λ b. b ≡ false → bindings.new ≡ bindings.old) }
    ensures err { OnErr result (bindings.new ≡ bindings.old) }
{
    let mark = bindings.mark();
    match perform(bindings, goal, first, act) {
        Ok(true) => Ok(true),
        Ok(false) => {
            bindings.undo(mark);
            Ok(false)
        }
        Err(error) => {
            bindings.undo(mark);
            Err(error)
        }
    }
}

impl<'a> Engine<'a> {
    /// Does what is done with the goal at this place, and takes the goal away; false where nothing solves it, and then
    /// the engine stands where it stood.
    pub(crate) fn solve_at(&mut self, at: Option<usize>, act: Act) -> Result<bool, AllocError>
        requires good { IsGood self.old }
        requires there { IsPlaceOf self.old at }
        requires ready { (l : RestValue) → (g : Goal ℕ) → BeginsAt self.old at l → IsGoalAt self.old l g
            → IsReady (count g.arguments) act }
        ensures good { IsGood self.new }
        ensures same { IsSameSearch self.old self.new }
        ensures above { (place_of self.new).above ≡ (place_of self.old).above }
        ensures solved { IfOk result (λ b. Solved self.old at act b self.new) }
        ensures err { OnErr result (place_of self.new ≡ place_of self.old) }
    {
        let rest = self.rest_at(at);
        let mark = self.history.bindings.mark();
        self.front.selected = None;
        let goal = goal_at(self.clauses, &self.root, rest);
        if !solve(&mut self.history.bindings, &goal, rest.first, act)? {
            return Ok(false);
        }
        match self.leave(at) {
            Ok(()) => Ok(true),
            Err(error) => {
                self.history.bindings.undo(mark);
                Err(error)
            }
        }
    }
}
