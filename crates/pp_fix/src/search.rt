//! The search of one of a query's goals.
ghost use Rattle.std.specs.Prelude.{◌≡◌, ◌<◌, IfOk};
ghost use Rattle.pp_algebra.specs.Terms.{count};
ghost use Rattle.pp_sld.specs.Verdicts.{HasVerdict};
ghost use Rattle.pp_term.specs.Meanings.{mode_of, program, shape_of};
ghost use Rattle.pp_term.specs.WellFormed.{arguments_of};
ghost use Rattle.pp_find.specs.Meanings.{verdict_by};
ghost use Rattle.pp_store.specs.Kept.{IsStoreOf};
ghost use Rattle.pp_store.specs.Queries.{IsGoalIn, goals_in};
ghost use Rattle.pp_fix.specs.Committing.{IsQuestionAt};

use pp_clause::Clauses;
use pp_find::Verdict;
use pp_infer::infer_alone;
use pp_store::{GoalIndex, Store};
use pp_term::{Mode, Row, Shape};
use pp_walk::Steps;
use std::alloc::{AllocError, Global};
use std::marker::Brand;
use std::sync::ledger::{Blank, Ledger};

/// What is searched for a goal: what it calls, how its answers are used, and its face.
#[derive(Debug, Drop)]
pub(crate) struct Question {
    pub shape: Shape,
    pub mode: Mode,
    pub face: Row,
}

/// That of the goal of this number.
pub(crate) fn asked(goals: &GoalIndex, store: &Store, goal: u32) -> Result<Question, AllocError>
    requires of_query { IsStoreOf goals.now store.now }
    requires goal { IsGoalIn goals.now goal }
    ensures width { IfOk result (λ q. count q.face.columns ≡ arguments_of q.shape) }
    ensures asked { IfOk result (λ q.
        IsQuestionAt (goals_in goals.now) store.now.row goal (shape_of q.shape) (mode_of q.mode) q.face) }
{
    let annotated = goals.at(goal);
    Ok(Question {
        shape: annotated.shape,
        mode: annotated.mode,
        face: store.face(goals, goal)?,
    })
}

/// The verdict of a goal under a face, where the reductions are counted for nobody.
fn uncounted<L: Ledger>(
    alloc: Global,
    blank: Blank,
    clauses: &Clauses,
    shape: Shape,
    mode: Mode,
    face: &Row,
    depth: u32,
) -> Result<Verdict, AllocError>
    requires name { blank.name ≡ L.name }
    requires parts { blank.parts ≡ L.parts }
    requires some { 0 < blank.parts }
    requires width { count face.now.columns ≡ arguments_of shape }
    ensures verdict { IfOk result (λ v.
        HasVerdict (program clauses.now) depth (mode_of mode) (shape_of shape) face.now (verdict_by v)) }
{
    let mut steps: Steps<L> = Steps::new(blank);
    infer_alone(alloc, clauses, shape, mode, face, depth, &mut steps)
}

/// The verdict of a goal under a face, found on this thread.
pub(crate) fn searched(
    alloc: Global,
    clauses: &Clauses,
    shape: Shape,
    mode: Mode,
    face: &Row,
    depth: u32,
) -> Result<Verdict, AllocError>
    requires width { count face.now.columns ≡ arguments_of shape }
    ensures verdict { IfOk result (λ v.
        HasVerdict (program clauses.now) depth (mode_of mode) (shape_of shape) face.now (verdict_by v)) }
{
    uncounted::<Brand>(alloc, Blank::new(1), clauses, shape, mode, face, depth)
}
