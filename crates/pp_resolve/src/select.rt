//! The goal that is selected: the leftmost one that doesn't wait.
ghost use Rattle.std.specs.Prelude.{◌≡◌, ◌<◌, ◌≤◌, [], ℕ, suc, true, Some, length, MatchOption, IfOk, OnOk};
ghost use Rattle.pp_resolve.specs.Events.{selected_as};
ghost use Rattle.std.specs.List.{slice_get};
ghost use Rattle.pp_algebra.specs.Terms.{count};
ghost use Rattle.pp_sld.specs.Goals.{Goal};
ghost use Rattle.pp_unify.specs.Forests.{AreOver, counted_all};
ghost use Rattle.pp_goal.specs.Arguments.{IsLent};
ghost use Rattle.pp_resolve.specs.Links.{IsRest};
ghost use Rattle.pp_resolve.specs.Shown.{IsShown};
ghost use Rattle.pp_resolve.specs.declared.suspended.Suspension.{Suspension as SuspensionValue};
ghost use Rattle.pp_resolve.specs.Engines.{goal_of, row_of, left, AreBelow, WaitBefore, AllWait, IsGood, IsSamePlace, IsGoalAt, IsMet, Finds, Looks, Sees};
ghost use Rattle.pp_goal.specs.declared.acts.Act.TheVariants.{Wait};

use crate::engine::Engine;
use crate::history::{Rest, Selected, Waits};
use crate::root::goal_at;
use crate::suspended::Suspension;
use pp_clause::GoalAt;
use pp_goal::{Act, act_on};
use std::alloc::AllocError;

impl<'a> Engine<'a> {
    /// The first goal of these.
    pub(crate) fn goal(&self, rest: Rest) -> GoalAt<'_>
        requires good { IsGood self.now }
        requires some { rest.from < rest.to }
        requires rest { IsRest self.now.clauses.now (goal_of self.now) (length self.now.history.links.items) rest }
        requires over { (g : Goal ℕ) → IsGoalAt self.now rest g
            → AreOver (row_of self.now) (counted_all rest.first g.arguments) }
        ensures shown { (g : Goal ℕ) → IsGoalAt self.now rest g → IsShown self.now.clauses.now g result }
        ensures lent { IsLent (row_of self.now) result rest.first }
    {
        goal_at(self.clauses, &self.root, rest)
    }

    /// What is done with the first goal of these.
    pub(crate) fn look(&self, rest: Rest) -> Act
        requires good { IsGood self.now }
        requires some { rest.from < rest.to }
        requires rest { IsRest self.now.clauses.now (goal_of self.now) (length self.now.history.links.items) rest }
        requires over { (g : Goal ℕ) → IsGoalAt self.now rest g
            → AreOver (row_of self.now) (counted_all rest.first g.arguments) }
        ensures { Looks self.now rest result }
    {
        act_on(&self.history.bindings, &self.goal(rest), rest.first)
    }

    /// Stands at the first goal that is left, and not at the end of a body before it.
    fn settle(&mut self)
        requires good { IsGood self.old }
        ensures same { IsSamePlace self.old self.new }
        ensures suspended { self.new.history.suspended ≡ self.old.history.suspended }
        ensures left { left self.new ≡ left self.old }
        ensures last { self.new.front.rest.from ≡ self.new.front.rest.to → left self.new ≡ [] }
    {
        let rest = self.front.rest;
        if rest.from == rest.to && rest.next > 0 {
            self.front.rest = self.history.links[rest.next as usize - 1];
            self.front.selected = None;
        }
    }

    /// What is done with the first goal that is left; `None` where none is.
    fn see(&mut self) -> Option<Act>
        requires good { IsGood self.old }
        ensures same { IsSamePlace self.old self.new }
        ensures suspended { self.new.history.suspended ≡ self.old.history.suspended }
        ensures left { left self.new ≡ left self.old }
        ensures sees { Sees self.new result }
    {
        self.settle();
        let rest = self.front.rest;
        if rest.from == rest.to {
            return None;
        }
        Some(self.look(rest))
    }

    /// A number above the variables of the first goal that is left.
    fn own_bound(&self) -> usize
        requires good { IsGood self.now }
        requires some { self.now.front.rest.from < self.now.front.rest.to }
        ensures below { AreBelow self.now.clauses.now (goal_of self.now) result self.now.front.rest }
        ensures sized { result ≤ count (row_of self.now).columns }
    {
        let all = self.history.bindings.len();
        let rest = self.front.rest;
        match rest.body {
            None => all,
            Some(number) => {
                let own = rest.first as usize + self.clauses.variables(number) as usize;
                if own < all { own } else { all }
            }
        }
    }

    /// A number above the variables of the first goal that is left and of all goals that are suspended.
    fn bound(&self) -> usize
        requires good { IsGood self.now }
        requires some { self.now.front.rest.from < self.now.front.rest.to }
        ensures below { AreBelow self.now.clauses.now (goal_of self.now) result self.now.front.rest }
        ensures sized { result ≤ count (row_of self.now).columns }
        ensures last { (j : ℕ) → (s : SuspensionValue) → slice_get self.now.history.suspended.goals.items j ≡ Some s
            → length self.now.history.suspended.goals.items ≡ suc j → s.below ≤ result }
    {
        let own = self.own_bound();
        match self.history.suspended.goals.last() {
            None => own,
            Some(goal) => own.max(goal.below),
        }
    }

    /// Suspends the first goal that is left.
    fn pass(&mut self) -> Result<(), AllocError>
        requires good { IsGood self.old }
        requires wait { AllWait self.old }
        requires sees { Sees self.old (Some Wait) }
        ensures same { IsSamePlace self.old self.new }
        ensures wait { OnOk result (AllWait self.new) }
        ensures fewer { OnOk result (length (left self.old) ≡ suc (length (left self.new))) }
    {
        let rest = self.front.rest;
        let below = self.bound();
        self.history.suspend(Suspension {
            rest: Rest { next: 0, ..rest },
            below,
        })?;
        self.front.waits = Waits {
            since: self.history.bindings.mark(),
            upto: self.history.suspended.goals.len(),
        };
        self.front.waiting += 1;
        self.front.rest.from += 1;
        self.front.selected = None;
        Ok(())
    }

    /// Whether the first so many suspended goals are known to wait still: no variable below the number that is kept
    /// with the last of them was bound since they were known to, or got its first domain.
    fn are_still(&self, amount: usize) -> bool
        requires good { IsGood self.now }
        requires upto { amount ≤ self.now.front.waits.upto }
        ensures { result ≡ true → WaitBefore self.now amount }
    {
        if amount == 0 {
            return true;
        }
        let below = self.history.suspended.goals[amount - 1].below;
        self.history
            .bindings
            .is_still(self.front.waits.since, below)
    }

    /// How many suspended goals, from the first on, are known to wait still.
    fn still_waiting(&self) -> usize
        requires good { IsGood self.now }
        ensures { WaitBefore self.now result }
    {
        let mut low = 0;
        let mut high = self.front.waits.upto;
        let mut next = high;
        while low < high {
            if self.are_still(next) {
                low = next;
            } else {
                high = next - 1;
            }
            next = low + (high - low + 1) / 2;
        }
        low
    }

    /// The first suspended goal, from this place on, that doesn't wait any more, with what is done with it. It changes
    /// nothing and takes no memory.
    pub(crate) fn woken_from(&self, from: usize) -> Option<(usize, Act)>
        requires good { IsGood self.now }
        requires wait { WaitBefore self.now from }
        ensures { MatchOption result (AllWait self.now) (λ p. IsMet self.now (selected_as (Some p.0) p.1)) }
    {
        for at in from..self.history.suspended.goals.len() {
            if !self.history.suspended.is_done(at) {
                let act = self.look(self.history.suspended.goals[at].rest);
                if act != Act::Wait {
                    return Some((at, act));
                }
            }
        }
        None
    }

    /// Keeps it that the suspended goals before this place wait now.
    fn keep_waits(&mut self, upto: usize)
        requires good { IsGood self.old }
        requires within { upto ≤ length self.old.history.suspended.goals.items }
        requires wait { WaitBefore self.old upto }
        ensures same { IsSamePlace self.old self.new }
        ensures suspended { self.new.history.suspended ≡ self.old.history.suspended }
        ensures rest { self.new.front.rest ≡ self.old.front.rest }
    {
        self.front.waits = Waits {
            since: self.history.bindings.mark(),
            upto,
        };
    }

    /// The leftmost suspended goal that doesn't wait any more. No goal is looked at where none can have changed.
    fn find_woken(&mut self) -> Option<Selected>
        requires good { IsGood self.old }
        ensures same { IsSamePlace self.old self.new }
        ensures found { MatchOption result (AllWait self.new) (IsMet self.new) }
    {
        if self.front.waiting == 0 {
            return None;
        }
        match self.woken_from(self.still_waiting()) {
            None => {
                let all = self.history.suspended.goals.len();
                self.keep_waits(all);
                None
            }
            Some((at, act)) => {
                self.keep_waits(at);
                Some(Selected { at: Some(at), act })
            }
        }
    }

    /// The leftmost goal that doesn't wait, with what is done with it; `None` where all wait.
    fn find(&mut self) -> Result<Option<Selected>, AllocError>
        requires good { IsGood self.old }
        ensures same { IsSamePlace self.old self.new }
        ensures found { IfOk result (Finds self.new) }
    {
        if let Some(found) = self.find_woken() {
            return Ok(Some(found));
        }
        let mut act = self.see();
        while let Some(Act::Wait) = act {
            self.pass()?;
            act = self.see();
        }
        match act {
            None => Ok(None),
            Some(act) => Ok(Some(Selected { at: None, act })),
        }
    }

    /// Finds the selected goal and keeps it with what is done with it; nothing where all wait. Until the engine moves,
    /// no goal is looked at again.
    pub(crate) fn select(&mut self) -> Result<(), AllocError>
        requires good { IsGood self.old }
        ensures same { IsSamePlace self.old self.new }
        ensures found { OnOk result (Finds self.new self.new.front.selected) }
    {
        if self.front.selected.is_some() {
            return Ok(());
        }
        self.front.selected = self.find()?;
        Ok(())
    }
}
