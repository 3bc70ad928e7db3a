//! Workers search a goal's works piece by piece.
ghost use Rattle.pp_term.specs.Meanings.{program, shape_of};
ghost use Rattle.pp_sld.specs.Leaves.{root};
ghost use Rattle.pp_path.specs.Works.{work_by};
ghost use Rattle.pp_search.specs.Orders.{is_later};
ghost use Rattle.pp_search.specs.Searches.{IsOver};

use crate::Search;
use pp_explore::Walker;
use pp_find::Finding;
use pp_path::Work;
use pp_resolve::Machine;
use pp_stop::{Stop, StopSeat};
use pp_worker::{Explorer, FoundOf};
use std::alloc::{AllocError, Global};
use std::marker::Brand;
use std::sync::ledger::Blank;

impl<'a> Explorer for Search<'a> {
    ghost use Rattle.pp_search.specs.Laws.{none_later, later_on};

    type Walker = Walker<Machine<'a>>;

    ghost belongs = { λ s w. IsOver (program s.clauses.now) (root (shape_of s.shape) s.face s.depth)
        (program w.machine.clauses) w.machine.place w.path.items };

    ghost is_later = { λ w v. is_later (work_by w) (work_by v) };

    /// At the root.
    fn walker(&self, alloc: Global) -> Result<Walker<Machine<'a>>, AllocError> {
        let machine = Machine::start(alloc, self.clauses, self.shape, &self.face, self.depth)?;
        Ok(Walker::new(alloc, machine))
    }

    /// What is known already is not used: each leaf that is met is joined.
    fn search(
        &self,
        walker: &mut Walker<Machine<'a>>,
        task: &Work,
        _under: &Finding,
        budget: u32,
        stop: &Stop,
        seat: &mut StopSeat,
    ) -> Result<FoundOf<Work, Finding>, AllocError> {
        if task.is_spent() {
            return self.search_spent(task, stop, seat);
        }
        self.search_open::<Brand>(Blank::new(1), walker, task, budget, stop, seat)
    }

    ghost later_irreflexive = { λ w. none_later (work_by w) };

    ghost later_transitive = { λ w v u h k. later_on (work_by w) (work_by v) (work_by u) h k };
}
