//! The tasks of a search are works.
ghost use Rattle.pp_term.specs.Meanings.{mode_of, program, shape_of};
ghost use Rattle.pp_search.specs.Worths.{worth_of};
ghost use Rattle.pp_search.specs.Orders.{are_same};

use crate::Search;
use pp_path::Work;
use pp_space::Space;
use std::alloc::AllocError;

impl<'a> Space for Search<'a> {
    ghost use Rattle.pp_search.specs.Laws.{worth_fits, same_itself, same_worths};

    type Task = Work;

    ghost worth = { λ s w. worth_of (program s.clauses.now) (shape_of s.shape) s.face s.depth (mode_of s.findings.mode)
        w };

    ghost are_same = { λ w v. are_same w v };

    fn copy_task(&self, a: &Work) -> Result<Work, AllocError> {
        a.copy()
    }

    fn same(&self, a: &Work, b: &Work) -> bool {
        a.same(b)
    }

    ghost worth_fits = { λ s w. worth_fits (program s.clauses.now) (shape_of s.shape) s.face s.depth
        (mode_of s.findings.mode) s.findings.call s.called w };

    ghost same_as_itself = { λ w. same_itself w };

    ghost same_worth = { λ s w v e.
        same_worths (program s.clauses.now) (shape_of s.shape) s.face s.depth (mode_of s.findings.mode) w v e };
}
