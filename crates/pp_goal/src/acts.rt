//! What is done with a goal.
ghost use Rattle.std.specs.Prelude.{◌≡◌, ◌+◌, ℕ, List};
ghost use Rattle.pp_algebra.specs.Terms.{count};
ghost use Rattle.pp_algebra.specs.Givens.{givens};
ghost use Rattle.pp_row.specs.Reading.{forest};
ghost use Rattle.pp_sld.specs.Goals.{Shape};
ghost use Rattle.pp_sld.specs.Selection.{act_by};
ghost use Rattle.pp_sld.specs.BuiltIns.{decide as decide_of};
ghost use Rattle.pp_term.specs.declared.clause.Clause.{Clause};
ghost use Rattle.pp_tests.specs.Decisions.{test_of, decision_of};
ghost use Rattle.pp_unify.specs.States.{present};
ghost use Rattle.pp_clause.specs.Goals.{Asks};
ghost use Rattle.pp_goal.specs.Arguments.{IsLent, terms_of, terms_in, arity_of};
ghost use Rattle.pp_goal.specs.Acts.{IsAct, IsMade, IsReady, acted};

use crate::arguments::argument;
use pp_clause::{GoalAt, Kind};
use pp_tests::{Decision, Test, decide};
use pp_unify::Bindings;

/// What is done with a goal under bindings.
#[derive(Clone, Copy, Debug, PartialEq, Eq)]
pub enum Act {
    /// It is passed over.
    Wait,
    /// Its branch fails.
    Fail,
    /// It is done.
    Hold,
    /// Its two arguments are made equal.
    Equate,
    /// Its argument is made be in the goal's domain.
    Narrow,
    /// The argument at this place, from 0, is made this integer.
    Bind(usize, i64),
    /// There is a choice of each value of its argument.
    Split,
    /// There is a choice of each clause of the predicate of this number.
    Call(u32),
}

/// What a built-in decides about its only argument.
fn decide_one(bindings: &Bindings, test: Test, goal: &GoalAt<'_>, first: u32) -> Decision
    requires lent { IsLent (present bindings.now) goal.now first }
    requires arguments { count (forest goal.now.arguments.now) ≡ 1 }
    requires arity { arity_of test ≡ 1 }
    ensures decided { decision_of result
        ≡ decide_of (test_of test) (givens (present bindings.now).domains
        (terms_in (present bindings.now) goal.now first)) }
    ensures made { IsMade (count (forest goal.now.arguments.now)) (decision_of result) }
{
    let only = argument(bindings, goal, first, 0);
    decide(test, &[only])
}

/// What a built-in decides about its two arguments.
fn decide_two(bindings: &Bindings, test: Test, goal: &GoalAt<'_>, first: u32) -> Decision
    requires lent { IsLent (present bindings.now) goal.now first }
    requires arguments { count (forest goal.now.arguments.now) ≡ 2 }
    requires arity { arity_of test ≡ 2 }
    ensures decided { decision_of result
        ≡ decide_of (test_of test) (givens (present bindings.now).domains
        (terms_in (present bindings.now) goal.now first)) }
    ensures made { IsMade (count (forest goal.now.arguments.now)) (decision_of result) }
{
    let left = argument(bindings, goal, first, 0);
    let right = argument(bindings, goal, first, 1);
    decide(test, &[left, right])
}

/// What a built-in decides about its three arguments.
fn decide_three(bindings: &Bindings, test: Test, goal: &GoalAt<'_>, first: u32) -> Decision
    requires lent { IsLent (present bindings.now) goal.now first }
    requires arguments { count (forest goal.now.arguments.now) ≡ 3 }
    requires arity { arity_of test ≡ 3 }
    ensures decided { decision_of result
        ≡ decide_of (test_of test) (givens (present bindings.now).domains
        (terms_in (present bindings.now) goal.now first)) }
    ensures made { IsMade (count (forest goal.now.arguments.now)) (decision_of result) }
{
    let x = argument(bindings, goal, first, 0);
    let y = argument(bindings, goal, first, 1);
    let z = argument(bindings, goal, first, 2);
    decide(test, &[x, y, z])
}

/// What a built-in decides about its arguments.
fn decide_on(bindings: &Bindings, test: Test, goal: &GoalAt<'_>, first: u32) -> Decision
    requires lent { IsLent (present bindings.now) goal.now first }
    requires arity { count (forest goal.now.arguments.now) ≡ arity_of test }
    ensures decided { decision_of result
        ≡ decide_of (test_of test) (givens (present bindings.now).domains
        (terms_in (present bindings.now) goal.now first)) }
    ensures made { IsMade (count (forest goal.now.arguments.now)) (decision_of result) }
{
    match test {
        Test::Less | Test::AtMost | Test::Equal | Test::Differ => {
            decide_two(bindings, test, goal, first)
        }
        Test::Plus | Test::Times => decide_three(bindings, test, goal, first),
        Test::Indomain => decide_one(bindings, test, goal, first),
    }
}

/// The act by which a decision is carried out.
fn decided(decision: Decision) -> Act
    ensures { result ≡ acted decision }
{
    match decision {
        Decision::Wait => Act::Wait,
        Decision::Fail => Act::Fail,
        Decision::Hold => Act::Hold,
        Decision::Bind(place, value) => Act::Bind(place, value),
        Decision::Split => Act::Split,
    }
}

/// What is done with a goal whose variables are counted from `first`. It looks at no more than the tops of the
/// goal's arguments, and takes no memory.
pub fn act_on(bindings: &Bindings, goal: &GoalAt<'_>, first: u32) -> Act
    requires lent { IsLent (present bindings.now) goal.now first }
    ensures act { (cs : List Clause) (s : Shape) → Asks cs goal.now.kind s
        → IsAct cs goal.now.kind (present bindings.now) (terms_of goal.now first) result
        (act_by (present bindings.now).domains (terms_in (present bindings.now) goal.now first) s) }
    ensures ready { IsReady (count (forest goal.now.arguments.now)) result }
{
    match goal.kind {
        Kind::User(predicate) => Act::Call(predicate),
        Kind::Equate => Act::Equate,
        Kind::Member(_) => Act::Narrow,
        Kind::Test(test) => decided(decide_on(bindings, test, goal, first)),
    }
}
