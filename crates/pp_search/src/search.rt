//! The search of one annotated goal.
ghost use Rattle.std.specs.Prelude.{◌≡◌, IfOk};
ghost use Rattle.pp_algebra.specs.Terms.{count};
ghost use Rattle.pp_algebra.specs.Numbered.{call};
ghost use Rattle.pp_term.specs.WellFormed.{arguments_of};

use pp_clause::Clauses;
use pp_find::Findings;
use pp_row::Row;
use pp_term::{Mode, Shape};
use std::alloc::{AllocError, Global};

/// The search of a goal of this shape under its face, at this depth, and the findings of its mode and call.
///
/// It is a space: a task is a work, which is worth the finding of its leaves.
#[derive(Drop)]
pub struct Search<'a> {
    pub findings: Findings,
    pub clauses: &'a Clauses,
    pub shape: Shape,
    pub face: Row,
    pub depth: u32,
    pub(crate) alloc: Global,
    pub ghost called: { findings.call ≡ call face },
    pub ghost arguments: { count face.columns ≡ arguments_of shape },
}

impl<'a> Search<'a> {
    /// The search of this goal. It keeps a copy of the face.
    pub fn new(
        alloc: Global,
        clauses: &'a Clauses,
        shape: Shape,
        mode: Mode,
        face: &Row,
        depth: u32,
    ) -> Result<Search<'a>, AllocError>
        requires arguments { count face.now.columns ≡ arguments_of shape }
        ensures clauses { IfOk result (λ search. search.clauses.now ≡ clauses.now) }
        ensures shape { IfOk result (λ search. search.shape ≡ shape) }
        ensures mode { IfOk result (λ search. search.findings.mode ≡ mode) }
        ensures face { IfOk result (λ search. search.face ≡ face.now) }
        ensures depth { IfOk result (λ search. search.depth ≡ depth) }
    {
        let call = face.call()?;
        let face = face.copy()?;
        Ok(Search {
            findings: Findings::new(alloc, mode, call),
            clauses,
            shape,
            face,
            depth,
            alloc,
        })
    }
}
