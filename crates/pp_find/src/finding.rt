//! Findings.
ghost use Rattle.std.specs.Prelude.{◌≡◌, ◌↔◌, IsTrue, IfOk};
ghost use Rattle.pp_algebra.specs.Rows.{Row as RowValue};
ghost use Rattle.pp_sld.specs.Verdicts.{Mode as ModeValue};
ghost use Rattle.pp_sld.specs.Lattice.{add_answer, add_loose};
ghost use Rattle.pp_find.specs.Meanings.{finding_by, FitsIn};

use crate::parts::{copy_option, copy_sole, same_options, same_soles};
use pp_row::Row;
use std::alloc::AllocError;

/// The only row so far: there is none, there is one, or there are two that differ.
#[derive(Debug, Drop)]
pub enum Sole {
    None,
    One(Row),
    Two,
}

/// What is known of a search while its answers and loose ends come in, by the mode of its goal.
#[derive(Debug, Drop)]
pub enum Finding {
    /// What the answers have in common, and what the answers and the loose ends have in common.
    Most { g: Option<Row>, h: Option<Row> },
    /// The only answer, and whether there is a loose end.
    Unique { sole: Sole, loose: bool },
    /// Whether there is an answer, and whether there is a loose end.
    Consistent { any: bool, loose: bool },
}

impl Finding {
    /// A copy.
    pub fn copy(&self) -> Result<Finding, AllocError>
        ensures { IfOk result (λ finding. finding ≡ self.now) }
    {
        Ok(match self {
            Finding::Most { g, h } => Finding::Most {
                g: copy_option(g)?,
                h: copy_option(h)?,
            },
            Finding::Unique { sole, loose } => Finding::Unique {
                sole: copy_sole(sole)?,
                loose: *loose,
            },
            Finding::Consistent { any, loose } => Finding::Consistent {
                any: *any,
                loose: *loose,
            },
        })
    }

    /// Whether one answer more changes nothing, whatever its row is.
    pub(crate) fn knows_answers(&self) -> bool
        ensures { IsTrue result → (m : ModeValue) (call row : RowValue) → ∥ FitsIn m call self.now ∥₁
            → add_answer m row (finding_by self.now) ≡ finding_by self.now }
    {
        match self {
            Finding::Most { .. } => false,
            Finding::Unique { sole, .. } => match sole {
                Sole::Two => true,
                _ => false,
            },
            Finding::Consistent { any, .. } => *any,
        }
    }

    /// The same of one loose end more.
    pub(crate) fn knows_loose(&self) -> bool
        ensures { IsTrue result → (m : ModeValue) (call row : RowValue) → ∥ FitsIn m call self.now ∥₁
            → add_loose m row (finding_by self.now) ≡ finding_by self.now }
    {
        match self {
            Finding::Most { .. } => false,
            Finding::Unique { loose, .. } => *loose,
            Finding::Consistent { loose, .. } => *loose,
        }
    }

    /// Whether both are one finding.
    pub fn same(&self, other: &Finding) -> bool
        ensures { IsTrue result ↔ (self.now ≡ other.now) }
    {
        match (self, other) {
            (Finding::Most { g, h }, Finding::Most { g: k, h: l }) => {
                same_options(g, k) && same_options(h, l)
            }
            (
                Finding::Unique { sole, loose },
                Finding::Unique {
                    sole: other_sole,
                    loose: other_loose,
                },
            ) => same_soles(sole, other_sole) && *loose == *other_loose,
            (
                Finding::Consistent { any, loose },
                Finding::Consistent {
                    any: other_any,
                    loose: other_loose,
                },
            ) => *any == *other_any && *loose == *other_loose,
            _ => false,
        }
    }
}
