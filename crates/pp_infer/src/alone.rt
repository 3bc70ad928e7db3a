//! The verdict of one annotated goal.
ghost use Rattle.std.specs.Prelude.{◌≡◌, IfOk};
ghost use Rattle.pp_algebra.specs.Terms.{count};
ghost use Rattle.pp_algebra.specs.Numbered.{call};
ghost use Rattle.pp_sld.specs.Leaves.{root};
ghost use Rattle.pp_sld.specs.Verdicts.{HasVerdict};
ghost use Rattle.pp_term.specs.Meanings.{mode_of, program, shape_of};
ghost use Rattle.pp_term.specs.WellFormed.{arguments_of};
ghost use Rattle.pp_find.specs.Meanings.{verdict_by};
ghost use Rattle.pp_walk.specs.Found.{IsWithinWalk};

use crate::verdict::infer;
use pp_clause::Clauses;
use pp_find::Verdict;
use pp_resolve::Machine;
use pp_row::Row;
use pp_term::{Mode, Shape};
use pp_walk::Steps;
use std::alloc::{AllocError, Global};
use std::sync::ledger::Ledger;

/// The verdict of a goal of this shape in this mode, under a face with a column for each argument, at this depth.
///
/// It is that of the whole search, of which no more is walked than up to the first leaf at which it is settled; each
/// reduction counts once. What it holds is the machine's path and one finding, never the list of answers. It answers
/// `AllocError` for want of memory alone.
pub fn infer_alone<L: Ledger>(
    alloc: Global,
    clauses: &Clauses,
    shape: Shape,
    mode: Mode,
    face: &Row,
    depth: u32,
    steps: &mut Steps<L>,
) -> Result<Verdict, AllocError>
    requires arguments { count face.now.columns ≡ arguments_of shape }
    ensures verdict { IfOk result (λ v.
        HasVerdict (program clauses.now) depth (mode_of mode) (shape_of shape) face.now (verdict_by v)) }
    ensures steps { IsWithinWalk (program clauses.now) (mode_of mode) (call face.now)
        (root (shape_of shape) face.now depth) steps.old steps.new }
{
    let mut machine = Machine::start(alloc, clauses, shape, face, depth)?;
    infer(alloc, &mut machine, mode, face.call()?, steps)
}
