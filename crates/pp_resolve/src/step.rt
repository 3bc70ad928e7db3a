//! A step of the engine.
ghost use Rattle.std.specs.Prelude.{◌≡◌, ◌≤◌, ◌+◌, [], IfOk, OnErr};
ghost use Rattle.pp_term.specs.Meanings.{program};
ghost use Rattle.pp_goal.specs.declared.acts.Act.TheVariants.{Call, Split, Fail};
ghost use Rattle.pp_walk.specs.Moves.{Stepped, step_cost};
ghost use Rattle.pp_resolve.specs.Events.{alternatives_of, selected_as, IsSolving, follows};
ghost use Rattle.pp_resolve.specs.Engines.{place_of, left, AllWait, IsGood, IsSameSearch, IsMet};

use crate::engine::Engine;
use crate::history::Selected;
use pp_goal::{Act, split_count};
use pp_walk::{Event, Steps};
use std::alloc::AllocError;
use std::sync::ledger::Ledger;

/// The choice of so many alternatives.
fn alternatives(count: u64) -> Event
    ensures { result ≡ alternatives_of count }
{
    if count == 0 {
        Event::Failed
    } else {
        Event::Choice(count)
    }
}

impl<'a> Engine<'a> {
    /// No goal is left that doesn't wait.
    fn finish(&self) -> Event
        requires good { IsGood self.now }
        requires wait { AllWait self.now }
        requires none { left self.now ≡ [] }
        ensures stepped { Stepped (program self.now.clauses.now) (place_of self.now) result (place_of self.now) }
        ensures cost { step_cost (follows self.now) ≡ 0 }
    {
        if self.front.waiting == 0 {
            Event::Answer
        } else {
            Event::Loose
        }
    }

    /// A call is selected.
    fn meet_call(&self, _at: Option<usize>, predicate: u32) -> Event
        requires good { IsGood self.now }
        requires met { IsMet self.now (selected_as _at (Call predicate)) }
        ensures stepped { Stepped (program self.now.clauses.now) (place_of self.now) result (place_of self.now) }
        ensures cost { step_cost (follows self.now) ≡ 0 }
    {
        if self.front.depth == 0 {
            return Event::Loose;
        }
        alternatives(self.clauses.count_at(predicate) as u64)
    }

    /// A choice of values is selected.
    fn meet_split(&self, at: Option<usize>) -> Event
        requires good { IsGood self.now }
        requires met { IsMet self.now (selected_as at Split) }
        ensures stepped { Stepped (program self.now.clauses.now) (place_of self.now) result (place_of self.now) }
        ensures cost { step_cost (follows self.now) ≡ 0 }
    {
        let rest = self.rest_at(at);
        alternatives(split_count(&self.history.bindings, &self.goal(rest), rest.first))
    }

    /// A goal that fails is selected.
    fn meet_failure(&self, _at: Option<usize>) -> Event
        requires good { IsGood self.now }
        requires met { IsMet self.now (selected_as _at Fail) }
        ensures stepped { Stepped (program self.now.clauses.now) (place_of self.now) result (place_of self.now) }
        ensures cost { step_cost (follows self.now) ≡ 1 }
    {
        Event::Failed
    }

    /// Performs the built-in that is selected.
    fn perform(&mut self, at: Option<usize>, act: Act) -> Result<Event, AllocError>
        requires good { IsGood self.old }
        requires met { IsMet self.old (selected_as at act) }
        requires solving { IsSolving act }
        ensures good { IsGood self.new }
        ensures same { IsSameSearch self.old self.new }
        ensures stepped { IfOk result (λ e.
            Stepped (program self.old.clauses.now) (place_of self.old) e (place_of self.new)) }
        ensures err { OnErr result (place_of self.new ≡ place_of self.old) }
        ensures cost { step_cost (follows self.old) ≡ 1 }
    {
        if self.solve_at(at, act)? {
            Ok(Event::Went)
        } else {
            Ok(Event::Failed)
        }
    }

    /// Does what is to do with the selected goal.
    fn meet<L: Ledger>(
        &mut self,
        selected: Selected,
        steps: &mut Steps<L>,
    ) -> Result<Event, AllocError>
        requires good { IsGood self.old }
        requires met { IsMet self.old selected }
        ensures good { IsGood self.new }
        ensures same { IsSameSearch self.old self.new }
        ensures stepped { IfOk result (λ e.
            Stepped (program self.old.clauses.now) (place_of self.old) e (place_of self.new)) }
        ensures err { OnErr result (place_of self.new ≡ place_of self.old) }
        ensures steps { steps.new ≡ steps.old + step_cost (follows self.old) }
    {
        match selected.act {
            Act::Call(predicate) => Ok(self.meet_call(selected.at, predicate)),
            Act::Split => Ok(self.meet_split(selected.at)),
            Act::Fail => {
                steps.tick();
                Ok(self.meet_failure(selected.at))
            }
            act => {
                steps.tick();
                self.perform(selected.at, act)
            }
        }
    }

    /// Makes one step. Only a built-in counts.
    pub(crate) fn step<L: Ledger>(&mut self, steps: &mut Steps<L>) -> Result<Event, AllocError>
        requires good { IsGood self.old }
        ensures good { IsGood self.new }
        ensures same { IsSameSearch self.old self.new }
        ensures stepped { IfOk result (λ e.
            Stepped (program self.old.clauses.now) (place_of self.old) e (place_of self.new)) }
        ensures err { OnErr result (place_of self.new ≡ place_of self.old) }
        ensures steps { IfOk result (λ _. steps.new ≡ steps.old + step_cost (follows self.old)) }
        ensures at_most { OnErr result (steps.new ≤ steps.old + step_cost (follows self.old)) }
    {
        self.select()?;
        match self.front.selected {
            None => Ok(self.finish()),
            Some(selected) => self.meet(selected, steps),
        }
    }
}
