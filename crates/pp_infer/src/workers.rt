//! The verdict of one annotated goal, found by many workers.
ghost use Rattle.std.specs.Prelude.{◌≡◌, ◌≤◌, IfOk};
ghost use Rattle.pp_algebra.specs.Terms.{count};
ghost use Rattle.pp_sld.specs.Verdicts.{HasVerdict};
ghost use Rattle.pp_term.specs.Meanings.{mode_of, program, shape_of};
ghost use Rattle.pp_term.specs.WellFormed.{arguments_of};
ghost use Rattle.pp_find.specs.Meanings.{verdict_by};

use pp_clause::Clauses;
use pp_find::Verdict;
use pp_path::Work;
use pp_row::Row;
use pp_search::Search;
use pp_team::search_with;
use pp_term::{Mode, Shape};
use pp_worker::Gate;
use std::alloc::{AllocError, Global};
use std::sync::Wait;
use std::thread::Threads;

/// The verdict of a goal of this shape in this mode, under a face with a column for each argument, at this depth.
///
/// So many workers search it, the caller among them. How they share the search makes no difference: it is the verdict
/// of the whole search, as one thread finds it. Each worker passes the gate at each point of its turns. It answers
/// `AllocError` for want of memory alone.
pub fn infer_with<G: Gate, R: Threads + Wait + Sync>(
    rt: &R,
    alloc: Global,
    clauses: &Clauses,
    shape: Shape,
    mode: Mode,
    face: &Row,
    depth: u32,
    workers: u32,
    gate: &G,
) -> Result<Verdict, AllocError>
    requires arguments { count face.now.columns ≡ arguments_of shape }
    requires workers { (1 ≤ workers) × (workers ≤ 64) }
    ensures verdict { IfOk result (λ v.
        HasVerdict (program clauses.now) depth (mode_of mode) (shape_of shape) face.now (verdict_by v)) }
{
    let search = Search::new(alloc, clauses, shape, mode, face, depth)?;
    search_with(rt, alloc, &search, Work::root(alloc), workers, gate)
}
