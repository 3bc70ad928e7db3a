//! Which alternative is tried next, told without a change.
ghost use Rattle.std.specs.Prelude.{◌≡◌, ◌+◌, ◌^◌, ◌<◌, ◌≤◌, ℕ, true, false, length, IfSome, MatchOption};
ghost use Rattle.pp_resolve.specs.Selected.{AllGoalsWait, IsSelected, IsFirstOf};
ghost use Rattle.pp_goal.specs.declared.acts.Act.TheVariants.{Call, Split};
ghost use Rattle.pp_term.specs.Meanings.{program};
ghost use Rattle.pp_walk.specs.Moves.{IsAtChoice, HasChoice, IsDeadAt, IsNextPlace, IsNext};
ghost use Rattle.pp_resolve.specs.Engines.{place_of, goal_of, row_of, AllWait, IsGood, IsGoalAt};
ghost use Rattle.pp_resolve.specs.Links.{IsRest, goals_in};
ghost use Rattle.pp_resolve.specs.Shown.{IsShown};
ghost use Rattle.pp_goal.specs.Arguments.{IsLent};
ghost use Rattle.pp_sld.specs.Goals.{Goal};

use crate::engine::Engine;
use crate::history::Rest;
use pp_clause::{First, GoalAt};
use pp_goal::{Act, first_argument, may_match, split_count};
use pp_walk::Next;

/// Whether a goal is left, of their own body or of a link.
fn has_goals(rest: Rest) -> bool
    ensures some { result ≡ true → rest.from ≡ rest.to → 0 < rest.next }
    ensures none { result ≡ false → rest.next ≡ 0 }
    ensures done { result ≡ false → rest.to ≤ rest.from }
{
    rest.from < rest.to || rest.next > 0
}

impl<'a> Engine<'a> {
    /// The same goals, not at the end of a body.
    fn first_left(&self, rest: Rest) -> Rest
        requires good { IsGood self.now }
        requires rest { IsRest self.now.clauses.now (goal_of self.now) (length self.now.history.links.items) rest }
        requires some { rest.from ≡ rest.to → 0 < rest.next }
        ensures rest { IsRest self.now.clauses.now (goal_of self.now) (length self.now.history.links.items) result }
        ensures some { result.from < result.to }
        ensures same { goals_in self.now.clauses.now (goal_of self.now) self.now.history.links.items result
            ≡ goals_in self.now.clauses.now (goal_of self.now) self.now.history.links.items rest }
    {
        if rest.from == rest.to {
            self.history.links[rest.next as usize - 1]
        } else {
            rest
        }
    }

    /// The first goal that is left and doesn't wait, with what is done with it.
    fn ready(&self) -> Option<(Rest, Act)>
        requires good { IsGood self.now }
        requires wait { AllWait self.now }
        ensures { MatchOption result (AllGoalsWait self.now) (IsSelected self.now) }
    {
        let mut rest = self.front.rest;
        while has_goals(rest) {
            let one = self.first_left(rest);
            let act = self.look(one);
            if act != Act::Wait {
                return Some((one, act));
            }
            rest = Rest {
                from: one.from + 1,
                ..one
            };
        }
        None
    }

    /// Whether the clause at a place, which its first argument doesn't rule out, may match the goal.
    fn may_take(
        &self,
        rest: Rest,
        goal: &GoalAt<'_>,
        first: First,
        predicate: u32,
        place: u32,
    ) -> bool
        requires good { IsGood self.now }
        requires selected { IsSelected self.now (rest, Call predicate) }
        requires choice { HasChoice (program self.now.clauses.now) (place_of self.now).here place }
        requires shown { (g : Goal ℕ) → IsGoalAt self.now rest g → IsShown self.now.clauses.now g goal.now }
        requires lent { IsLent (row_of self.now) goal.now rest.first }
        ensures { result ≡ false → IsDeadAt (program self.now.clauses.now) (place_of self.now).here place }
    {
        match first {
            // Behind a compound no other argument is looked at.
            First::Functor(_, _) => true,
            _ => {
                let head = self.clauses.head(self.clauses.number(predicate, place));
                may_match(&self.history.bindings, goal, rest.first, head)
            }
        }
    }

    /// The next clause that may match the goal, from this place on, by what is known of its first argument.
    fn clause_from(
        &self,
        rest: Rest,
        goal: &GoalAt<'_>,
        first: First,
        predicate: u32,
        from: u32,
    ) -> Option<u32>
        requires good { IsGood self.now }
        requires selected { IsSelected self.now (rest, Call predicate) }
        requires choice { IsAtChoice (program self.now.clauses.now) (place_of self.now).here }
        requires shown { (g : Goal ℕ) → IsGoalAt self.now rest g → IsShown self.now.clauses.now g goal.now }
        requires lent { IsLent (row_of self.now) goal.now rest.first }
        requires first { IsFirstOf self.now rest first }
        ensures next { IsNextPlace (program self.now.clauses.now) (place_of self.now).here from result }
        ensures small { IfSome result (λ place. place + 1 < 2 ^ 32) }
    {
        let mut next = from;
        while let Some(place) = self.clauses.place_from(predicate, first, next) {
            if self.may_take(rest, goal, first, predicate, place) {
                return Some(place);
            }
            next = place + 1;
        }
        None
    }

    /// The next clause that may match the goal, from this place on. It is known to be the last one where no first
    /// argument behind it matches.
    fn next_clause(&self, rest: Rest, predicate: u32, from: u64) -> Next
        requires good { IsGood self.now }
        requires selected { IsSelected self.now (rest, Call predicate) }
        requires choice { IsAtChoice (program self.now.clauses.now) (place_of self.now).here }
        ensures { IsNext (program self.now.clauses.now) (place_of self.now).here from result }
    {
        if from >= self.clauses.count_at(predicate) as u64 {
            return Next::Nothing;
        }
        let goal = self.goal(rest);
        let first = first_argument(&self.history.bindings, &goal, rest.first);
        let Some(place) = self.clause_from(rest, &goal, first, predicate, from as u32) else {
            return Next::Nothing;
        };
        if self.clauses.is_end(predicate, first, place + 1) {
            Next::Last(place as u64)
        } else {
            Next::At(place as u64)
        }
    }

    /// The next value of the goal's argument, from this place on.
    fn next_value(&self, rest: Rest, from: u64) -> Next
        requires good { IsGood self.now }
        requires selected { IsSelected self.now (rest, Split) }
        requires choice { IsAtChoice (program self.now.clauses.now) (place_of self.now).here }
        ensures { IsNext (program self.now.clauses.now) (place_of self.now).here from result }
    {
        let count = split_count(&self.history.bindings, &self.goal(rest), rest.first);
        if from >= count {
            Next::Nothing
        } else if from + 1 == count {
            Next::Last(from)
        } else {
            Next::At(from)
        }
    }

    /// The next alternative of the goal by what is done with it, from this place on.
    fn next_of(&self, rest: Rest, act: Act, from: u64) -> Next
        requires good { IsGood self.now }
        requires selected { IsSelected self.now (rest, act) }
        requires choice { IsAtChoice (program self.now.clauses.now) (place_of self.now).here }
        ensures { IsNext (program self.now.clauses.now) (place_of self.now).here from result }
    {
        match act {
            Act::Call(predicate) => self.next_clause(rest, predicate, from),
            Act::Split => self.next_value(rest, from),
            _ => Next::Nothing,
        }
    }

    /// The leftmost goal that doesn't wait, with what is done with it. It changes nothing and takes no memory.
    fn selected(&self) -> Option<(Rest, Act)>
        requires good { IsGood self.now }
        ensures { MatchOption result (AllGoalsWait self.now) (IsSelected self.now) }
    {
        if let Some(selected) = self.front.selected {
            return Some((self.rest_at(selected.at), selected.act));
        }
        match self.woken_from(0) {
            Some((at, act)) => Some((self.rest_at(Some(at)), act)),
            None => self.ready(),
        }
    }

    /// The next place to try, from this one on, and whether it is known to be the last one.
    pub(crate) fn next_from(&self, from: u64) -> Next
        requires good { IsGood self.now }
        requires choice { IsAtChoice (program self.now.clauses.now) (place_of self.now).here }
        ensures { IsNext (program self.now.clauses.now) (place_of self.now).here from result }
    {
        match self.selected() {
            Some((rest, act)) => self.next_of(rest, act, from),
            None => Next::Nothing,
        }
    }

    /// The next place to try, from this one on.
    pub(crate) fn place_from(&self, from: u64) -> Option<u64>
        requires good { IsGood self.now }
        requires choice { IsAtChoice (program self.now.clauses.now) (place_of self.now).here }
        ensures { IsNextPlace (program self.now.clauses.now) (place_of self.now).here from result }
    {
        match self.next_from(from) {
            Next::Nothing => None,
            Next::Last(at) | Next::At(at) => Some(at),
        }
    }
}
