//! Findings as a lattice.
ghost use Rattle.std.specs.Prelude.{◌≡◌, ◌↔◌, IfOk, IsTrue};
ghost use Rattle.pp_sld.specs.Findings.{join_option};
ghost use Rattle.pp_sld.specs.Lattice.{UnderIfSome};
ghost use Rattle.pp_term.specs.Meanings.{mode_of};
ghost use Rattle.pp_find.specs.Meanings.{joined, none_yet, FitsIn, settled_by, outcome_by, PartsAlike};

use crate::outcome::{consistent, most, unique};
use crate::parts::{is_sole_below, join_options, join_soles, same_rows};
use crate::{Finding, Findings, Sole, Verdict};
use pp_order::covers;
use pp_row::Row;
use pp_space::Lattice;
use pp_term::Mode;
use std::alloc::{AllocError, Global};

/// What both know.
fn join_findings(alloc: Global, a: &Finding, b: &Finding) -> Result<Finding, AllocError>
    requires alike { PartsAlike a.now b.now }
    ensures { IfOk result (λ r. r ≡ joined a.now b.now) }
{
    match (a, b) {
        (Finding::Most { g, h }, Finding::Most { g: k, h: l }) => Ok(Finding::Most {
            g: join_options(alloc, g, k)?,
            h: join_options(alloc, h, l)?,
        }),
        (
            Finding::Unique { sole, loose },
            Finding::Unique {
                sole: other_sole,
                loose: other_loose,
            },
        ) => Ok(Finding::Unique {
            sole: join_soles(sole, other_sole)?,
            loose: *loose || *other_loose,
        }),
        (
            Finding::Consistent { any, loose },
            Finding::Consistent {
                any: other_any,
                loose: other_loose,
            },
        ) => Ok(Finding::Consistent {
            any: *any || *other_any,
            loose: *loose || *other_loose,
        }),
        _ => a.copy(),
    }
}

impl Findings {
    /// Whether what the second stands for covers what the first does.
    fn is_option_below(&self, a: &Option<Row>, b: &Option<Row>) -> Result<bool, AllocError>
        requires left { ∥ UnderIfSome self.now.call a.now ∥₁ }
        requires right { ∥ UnderIfSome self.now.call b.now ∥₁ }
        ensures { IfOk result (λ is. IsTrue is ↔ (join_option a.now b.now ≡ b.now)) }
    {
        match (a, b) {
            (None, _) => Ok(true),
            (Some(_), None) => Ok(false),
            (Some(left), Some(right)) => covers(self.alloc, right, left),
        }
    }
}

impl Lattice for Findings {
    ghost use Rattle.pp_find.specs.Laws as laws;

    type Value = Finding;

    type Outcome = Verdict;

    ghost fits = { λ s a. FitsIn (mode_of s.mode) s.call a };

    ghost bottom = { λ s. none_yet (mode_of s.mode) };

    ghost joined = { λ s a b. joined a b };

    ghost is_settled = { λ s a. settled_by s.call a };

    ghost outcome_of = { λ s a. outcome_by s.call a };

    fn empty(&self) -> Finding {
        match self.mode {
            Mode::Most => Finding::Most { g: None, h: None },
            Mode::Unique => Finding::Unique {
                sole: Sole::None,
                loose: false,
            },
            Mode::Consistent => Finding::Consistent {
                any: false,
                loose: false,
            },
        }
    }

    fn copy_of(&self, a: &Finding) -> Result<Finding, AllocError> {
        a.copy()
    }

    fn join(&self, a: &Finding, b: &Finding) -> Result<Finding, AllocError> {
        join_findings(self.alloc, a, b)
    }

    fn below(&self, a: &Finding, b: &Finding) -> Result<bool, AllocError> {
        match (a, b) {
            (Finding::Most { g, h }, Finding::Most { g: k, h: l }) => {
                Ok(self.is_option_below(g, k)? && self.is_option_below(h, l)?)
            }
            (
                Finding::Unique { sole, loose },
                Finding::Unique {
                    sole: other_sole,
                    loose: other_loose,
                },
            ) => Ok(is_sole_below(sole, other_sole) && (*other_loose || !*loose)),
            (
                Finding::Consistent { any, loose },
                Finding::Consistent {
                    any: other_any,
                    loose: other_loose,
                },
            ) => Ok((*other_any || !*any) && (*other_loose || !*loose)),
            _ => Ok(false),
        }
    }

    fn settled(&self, a: &Finding) -> bool {
        match a {
            Finding::Most { g: Some(g), .. } => same_rows(g, &self.call),
            Finding::Most { g: None, .. } => false,
            Finding::Unique { sole, .. } => matches!(sole, Sole::Two),
            Finding::Consistent { any, .. } => *any,
        }
    }

    fn outcome(&self, a: &Finding) -> Result<Verdict, AllocError> {
        match a {
            Finding::Most { g, h } => most(&self.call, g, h),
            Finding::Unique { sole, loose } => unique(&self.call, sole, *loose),
            Finding::Consistent { any, loose } => Ok(consistent(*any, *loose)),
        }
    }

    ghost bottom_fits = { λ s. laws.bottom_fits (mode_of s.mode) s.call };

    ghost joined_fits = { λ s. laws.both_fit (mode_of s.mode) s.call };

    ghost unit = { λ s. laws.unit (mode_of s.mode) s.call };

    ghost idempotent = { λ s. laws.again (mode_of s.mode) s.call };

    ghost commutative = { λ s. laws.turned (mode_of s.mode) s.call };

    ghost associative = { λ s. laws.grouped (mode_of s.mode) s.call };

    ghost settled_stays = { λ s. laws.stays (mode_of s.mode) s.call };
}
