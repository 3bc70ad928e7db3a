//! The finding of a walk.
ghost use Rattle.std.specs.Prelude.{◌≡◌, IfOk};
ghost use Rattle.pp_sld.specs.Findings.{empty};
ghost use Rattle.pp_term.specs.Meanings.{mode_of};
ghost use Rattle.pp_find.specs.Meanings.{finding_by, outcome_by};

use pp_find::{Collector, Verdict};
use pp_row::Row;
use pp_term::Mode;
use pp_walk::Gatherer;
use std::alloc::{AllocError, Global};

/// What a walk has found, as a collector of this mode and call keeps it.
#[derive(Debug, Drop)]
pub struct Gathered {
    pub collector: Collector,
}

impl Gathered {
    /// Nothing yet.
    pub fn new(alloc: Global, mode: Mode, call: Row) -> Gathered
        ensures mode { result.collector.mode ≡ mode }
        ensures call { result.collector.call ≡ call }
        ensures empty { finding_by result.collector.finding ≡ empty (mode_of mode) }
    {
        Gathered {
            collector: Collector::new(alloc, mode, call),
        }
    }

    /// What the finding comes to.
    pub fn verdict(&mut self) -> Result<Verdict, AllocError>
        ensures { IfOk result (λ v. v ≡ outcome_by self.old.collector.call self.old.collector.finding) }
    {
        self.collector.outcome()
    }
}

impl Gatherer for Gathered {
    ghost mode = { λ s. mode_of s.collector.mode };

    ghost call = { λ s. s.collector.call };

    ghost finding = { λ s. finding_by s.collector.finding };

    fn add_answer(&mut self, row: Row) -> Result<(), AllocError> {
        self.collector.add_answer(row)
    }

    fn add_loose(&mut self, row: Row) -> Result<(), AllocError> {
        self.collector.add_loose(row)
    }

    fn answer_cover(&self) -> Option<&Row> {
        self.collector.answer_cover()
    }

    fn loose_cover(&self) -> Option<&Row> {
        self.collector.loose_cover()
    }

    fn is_settled(&self) -> bool {
        self.collector.is_settled()
    }
}
