//! An alternative of the selected goal is taken.
ghost use Rattle.std.specs.Prelude.{◌≡◌, ◌<◌, ◌+◌, Some, None, false, length, slice_get, IfOk, OnErr};
ghost use Rattle.pp_algebra.specs.Terms.{count};
ghost use Rattle.pp_row.specs.Columns.{trees_of};
ghost use Rattle.pp_row.specs.Reading.{forest};
ghost use Rattle.pp_term.specs.declared.clause.Clause.{Clause};
ghost use Rattle.pp_term.specs.Meanings.{program};
ghost use Rattle.pp_term.specs.WellFormed.{IsClause};
ghost use Rattle.pp_unify.specs.States.{present, with_many, IsLonger};
ghost use Rattle.pp_unify.specs.Forests.{AreDecided, pairs};
ghost use Rattle.pp_goal.specs.Arguments.{IsLent};
ghost use Rattle.pp_goal.specs.declared.acts.Act.TheVariants.{Call, Split};
ghost use Rattle.pp_walk.specs.Moves.{HasChoice, Chose, Committed};
ghost use Rattle.pp_resolve.specs.Events.{selected_as, Took, IsNext};
ghost use Rattle.pp_resolve.specs.Engines.{place_of, IsGood, IsSameSearch, IsMet};

use crate::engine::Engine;
use crate::history::{Rest, Selected};
use crate::root::goal_at;
use pp_clause::{Clauses, GoalAt};
use pp_goal::{Act, split_value};
use pp_unify::Bindings;
use pp_walk::Steps;
use std::alloc::AllocError;
use std::sync::ledger::Ledger;

/// Adds the variables of the clause of this number and makes its head equal to a goal's arguments; false where
/// nothing does, and then nothing is changed.
fn enter(
    clauses: &Clauses,
    bindings: &mut Bindings,
    goal: &GoalAt<'_>,
    first: u32,
    number: u32,
) -> Result<bool, AllocError>
    requires lent { IsLent (present bindings.old) goal.now first }
    requires number { number < length clauses.now }
    requires formed { (c : Clause) → slice_get clauses.now number ≡ Some c → IsClause c }
    requires width { (c : Clause) → slice_get clauses.now number ≡ Some c
        → length c.head ≡ count (forest goal.now.arguments.now) }
    ensures entered { IfOk result (λ b. (c : Clause) → slice_get clauses.now number ≡ Some c
        → AreDecided (with_many (present bindings.old) c.vars)
        (pairs (count (present bindings.old).columns) (trees_of c.head) first (forest goal.now.arguments.now)) b
        (present bindings.new)) }
    ensures kept { IsLonger bindings.old bindings.new }
    ensures stays { IfOk result (λ b. b ≡ false → bindings.new ≡ bindings.old) }
    ensures err { OnErr result (bindings.new ≡ bindings.old) }
{
    let head = clauses.head(number);
    let amount = clauses.variables(number);
    let mark = bindings.mark();
    match bindings.enter(goal.arguments, first, head, amount) {
        Ok(true) => Ok(true),
        Ok(false) => {
            bindings.undo(mark);
            Ok(false)
        }
        Err(error) => {
            bindings.undo(mark);
            Err(error)
        }
    }
}

impl<'a> Engine<'a> {
    /// Enters the clause at a place, whose body comes before the goals of the link `next`.
    fn enter_body(&mut self, predicate: u32, place: u32, next: u32) -> Result<bool, AllocError>
        requires good { IsGood self.old }
        requires met { IsMet self.old (selected_as None (Call predicate)) }
        requires choice { HasChoice (program self.old.clauses.now) (place_of self.old).here place }
        requires next { IsNext self.old next }
        ensures good { IsGood self.new }
        ensures same { IsSameSearch self.old self.new }
        ensures above { (place_of self.new).above ≡ (place_of self.old).above }
        ensures took { IfOk result (λ b. Took self.old place b self.new) }
        ensures err { OnErr result (place_of self.new ≡ place_of self.old) }
    {
        let rest = self.front.rest;
        let first = u32::try_from(self.history.bindings.len()).map_err(|_| AllocError)?;
        let number = self.clauses.number(predicate, place);
        let to = self.clauses.body_len(number);
        let goal = goal_at(self.clauses, &self.root, rest);
        let entered = enter(
            self.clauses,
            &mut self.history.bindings,
            &goal,
            rest.first,
            number,
        )?;
        if entered {
            self.front.depth -= 1;
            self.front.selected = None;
            self.front.rest = Rest {
                body: Some(number),
                from: 0,
                to,
                first,
                next,
            };
        }
        Ok(entered)
    }

    /// Calls the clause at a place of the predicate.
    fn call(&mut self, predicate: u32, place: u32) -> Result<bool, AllocError>
        requires good { IsGood self.old }
        requires met { IsMet self.old (selected_as None (Call predicate)) }
        requires choice { HasChoice (program self.old.clauses.now) (place_of self.old).here place }
        ensures good { IsGood self.new }
        ensures same { IsSameSearch self.old self.new }
        ensures above { (place_of self.new).above ≡ (place_of self.old).above }
        ensures took { IfOk result (λ b. Took self.old place b self.new) }
        ensures err { OnErr result (place_of self.new ≡ place_of self.old) }
    {
        let rest = self.front.rest;
        let next = self.link_of(Rest {
            from: rest.from + 1,
            ..rest
        })?;
        self.enter_body(predicate, place, next)
    }

    /// Makes the argument of the selected goal equal to the value at a place.
    fn take_value(&mut self, at: Option<usize>, place: u64) -> Result<bool, AllocError>
        requires good { IsGood self.old }
        requires met { IsMet self.old (selected_as at Split) }
        requires choice { HasChoice (program self.old.clauses.now) (place_of self.old).here place }
        ensures good { IsGood self.new }
        ensures same { IsSameSearch self.old self.new }
        ensures above { (place_of self.new).above ≡ (place_of self.old).above }
        ensures took { IfOk result (λ b. Took self.old place b self.new) }
        ensures err { OnErr result (place_of self.new ≡ place_of self.old) }
    {
        let rest = self.rest_at(at);
        let value = split_value(&self.history.bindings, &self.goal(rest), rest.first, place);
        self.solve_at(at, Act::Bind(0, value))
    }

    /// Goes the way of the alternative at a place of the selected goal.
    fn take_by(&mut self, selected: Selected, place: u64) -> Result<bool, AllocError>
        requires good { IsGood self.old }
        requires met { IsMet self.old selected }
        requires choice { HasChoice (program self.old.clauses.now) (place_of self.old).here place }
        ensures good { IsGood self.new }
        ensures same { IsSameSearch self.old self.new }
        ensures above { (place_of self.new).above ≡ (place_of self.old).above }
        ensures took { IfOk result (λ b. Took self.old place b self.new) }
        ensures err { OnErr result (place_of self.new ≡ place_of self.old) }
    {
        match selected.act {
            Act::Call(predicate) => {
                let None = selected.at else {
                    // A suspended goal is no call.
                    return Ok(false);
                };
                let place = u32::try_from(place).map_err(|_| AllocError)?;
                self.call(predicate, place)
            }
            Act::Split => self.take_value(selected.at, place),
            _ => Ok(false),
        }
    }

    /// Goes the way of the alternative at a place; false where it fails, and then it stands where it stood.
    fn take(&mut self, place: u64) -> Result<bool, AllocError>
        requires good { IsGood self.old }
        requires choice { HasChoice (program self.old.clauses.now) (place_of self.old).here place }
        ensures good { IsGood self.new }
        ensures same { IsSameSearch self.old self.new }
        ensures above { (place_of self.new).above ≡ (place_of self.old).above }
        ensures took { IfOk result (λ b. Took self.old place b self.new) }
        ensures err { OnErr result (place_of self.new ≡ place_of self.old) }
    {
        self.select()?;
        match self.front.selected {
            None => Ok(false),
            Some(selected) => self.take_by(selected, place),
        }
    }

    /// Goes the way of the alternative at a place for good: `back` goes to the choice above. False where it fails.
    pub(crate) fn commit<L: Ledger>(
        &mut self,
        place: u64,
        steps: &mut Steps<L>,
    ) -> Result<bool, AllocError>
        requires good { IsGood self.old }
        requires choice { HasChoice (program self.old.clauses.now) (place_of self.old).here place }
        ensures good { IsGood self.new }
        ensures same { IsSameSearch self.old self.new }
        ensures committed { IfOk result
            (λ b. Committed (program self.old.clauses.now) (place_of self.old) place b (place_of self.new)) }
        ensures err { OnErr result (place_of self.new ≡ place_of self.old) }
        ensures steps { steps.new ≡ steps.old + 1 }
    {
        steps.tick();
        self.take(place)
    }

    /// Goes the way of the alternative at a place, to which `back` returns; false where it fails.
    pub(crate) fn choose<L: Ledger>(
        &mut self,
        place: u64,
        steps: &mut Steps<L>,
    ) -> Result<bool, AllocError>
        requires good { IsGood self.old }
        requires choice { HasChoice (program self.old.clauses.now) (place_of self.old).here place }
        ensures good { IsGood self.new }
        ensures same { IsSameSearch self.old self.new }
        ensures chose { IfOk result (λ b.
            Chose (program self.old.clauses.now) (place_of self.old) place b (place_of self.new)) }
        ensures err { OnErr result (place_of self.new ≡ place_of self.old) }
        ensures steps { steps.new ≡ steps.old + 1 }
    {
        steps.tick();
        self.save()?;
        match self.take(place) {
            Ok(true) => Ok(true),
            Ok(false) => {
                self.back();
                Ok(false)
            }
            Err(error) => {
                self.back();
                Err(error)
            }
        }
    }
}
