//! What is found in a search is joined as findings are.
ghost use Rattle.pp_term.specs.Meanings.{mode_of};
ghost use Rattle.pp_find.specs.Meanings.{joined, none_yet, FitsIn, settled_by, outcome_by};

use crate::Search;
use pp_find::{Finding, Verdict};
use pp_space::Lattice;
use std::alloc::AllocError;

impl<'a> Lattice for Search<'a> {
    ghost use Rattle.pp_find.specs.Laws as laws;

    type Value = Finding;

    type Outcome = Verdict;

    ghost fits = { λ s a. FitsIn (mode_of s.findings.mode) s.findings.call a };

    ghost bottom = { λ s. none_yet (mode_of s.findings.mode) };

    ghost joined = { λ s a b. joined a b };

    ghost is_settled = { λ s a. settled_by s.findings.call a };

    ghost outcome_of = { λ s a. outcome_by s.findings.call a };

    fn empty(&self) -> Finding {
        self.findings.empty()
    }

    fn copy_of(&self, a: &Finding) -> Result<Finding, AllocError> {
        self.findings.copy_of(a)
    }

    fn join(&self, a: &Finding, b: &Finding) -> Result<Finding, AllocError> {
        self.findings.join(a, b)
    }

    fn below(&self, a: &Finding, b: &Finding) -> Result<bool, AllocError> {
        self.findings.below(a, b)
    }

    fn settled(&self, a: &Finding) -> bool {
        self.findings.settled(a)
    }

    fn outcome(&self, a: &Finding) -> Result<Verdict, AllocError> {
        self.findings.outcome(a)
    }

    ghost bottom_fits = { λ s. laws.bottom_fits (mode_of s.findings.mode) s.findings.call };

    ghost joined_fits = { λ s. laws.both_fit (mode_of s.findings.mode) s.findings.call };

    ghost unit = { λ s. laws.unit (mode_of s.findings.mode) s.findings.call };

    ghost idempotent = { λ s. laws.again (mode_of s.findings.mode) s.findings.call };

    ghost commutative = { λ s. laws.turned (mode_of s.findings.mode) s.findings.call };

    ghost associative = { λ s. laws.grouped (mode_of s.findings.mode) s.findings.call };

    ghost settled_stays = { λ s. laws.stays (mode_of s.findings.mode) s.findings.call };
}
