//! What a collector keeps.
ghost use Rattle.std.specs.Prelude.{◌≡◌, IfOk, IfSome, OnErr};
ghost use Rattle.pp_algebra.specs.Rows.{Row as RowValue};
ghost use Rattle.pp_algebra.specs.Covers.{RowCovers};
ghost use Rattle.pp_sld.specs.Findings.{empty};
ghost use Rattle.pp_sld.specs.Lattice as lattice;
ghost use Rattle.pp_term.specs.Meanings.{mode_of};
ghost use Rattle.pp_find.specs.Meanings.{finding_by, settled_by, FitsIn};
ghost use Rattle.pp_find.specs.Collected.{found_by, IsKnown};

use crate::leaves::Leaves;
use crate::{Finding, Findings};
use pp_row::Row;
use pp_space::Lattice;
use pp_term::Mode;
use std::alloc::AllocError;

/// What is kept: for `most` rows that are not joined yet.
#[derive(Debug, Drop)]
pub(crate) enum Known {
    Most(Leaves),
    Other(Finding),
}

impl Known {
    /// Nothing yet.
    pub(crate) fn new(findings: &Findings) -> Known
        ensures fits { ∥ FitsIn (mode_of findings.now.mode) findings.now.call (found_by result) ∥₁ }
        ensures known { ∥ IsKnown findings.now.call result ∥₁ }
        ensures empty { finding_by (found_by result) ≡ empty (mode_of findings.now.mode) }
    {
        match findings.mode {
            Mode::Most => Known::Most(Leaves::new(findings.alloc)),
            _ => Known::Other(findings.empty()),
        }
    }

    /// One answer more.
    pub(crate) fn add_answer(&mut self, findings: &Findings, row: Row) -> Result<(), AllocError>
        requires fits { ∥ FitsIn (mode_of findings.now.mode) findings.now.call (found_by self.old) ∥₁ }
        requires known { ∥ IsKnown findings.now.call self.old ∥₁ }
        requires under { RowCovers findings.now.call row }
        ensures fits { ∥ FitsIn (mode_of findings.now.mode) findings.now.call (found_by self.new) ∥₁ }
        ensures known { ∥ IsKnown findings.now.call self.new ∥₁ }
        ensures added { IfOk result (λ _.
            finding_by (found_by self.new)
            ≡ lattice.add_answer (mode_of findings.now.mode) row (finding_by (found_by self.old))) }
        ensures err { OnErr result (found_by self.new ≡ found_by self.old) }
    {
        let _canonical = row.columns();
        match self {
            Known::Most(leaves) => leaves.add_answer(findings.alloc, &findings.call, row)?,
            Known::Other(finding) => findings.take_answer(finding, row)?,
        }
        Ok(())
    }

    /// One loose end more.
    pub(crate) fn add_loose(&mut self, findings: &Findings, row: Row) -> Result<(), AllocError>
        requires fits { ∥ FitsIn (mode_of findings.now.mode) findings.now.call (found_by self.old) ∥₁ }
        requires known { ∥ IsKnown findings.now.call self.old ∥₁ }
        requires under { RowCovers findings.now.call row }
        ensures fits { ∥ FitsIn (mode_of findings.now.mode) findings.now.call (found_by self.new) ∥₁ }
        ensures known { ∥ IsKnown findings.now.call self.new ∥₁ }
        ensures added { IfOk result (λ _.
            finding_by (found_by self.new)
            ≡ lattice.add_loose (mode_of findings.now.mode) row (finding_by (found_by self.old))) }
        ensures err { OnErr result (found_by self.new ≡ found_by self.old) }
    {
        let _canonical = row.columns();
        match self {
            Known::Most(leaves) => leaves.add_loose(findings.alloc, &findings.call, row)?,
            Known::Other(finding) => findings.take_loose(finding, &row)?,
        }
        Ok(())
    }

    /// A row that covers only answers that change nothing, where there is one.
    pub(crate) fn answer_cover<'a>(&'a self, findings: &'a Findings) -> Option<&'a Row>
        requires fits { ∥ FitsIn (mode_of findings.now.mode) findings.now.call (found_by self.now) ∥₁ }
        requires known { ∥ IsKnown findings.now.call self.now ∥₁ }
        ensures { IfSome result (λ w. (r : RowValue) → lattice.IsUnder findings.now.call r → RowCovers w.now r
            → lattice.add_answer (mode_of findings.now.mode) r (finding_by (found_by self.now))
            ≡ finding_by (found_by self.now)) }
    {
        match self {
            Known::Most(leaves) => leaves.answer_cover(&findings.call),
            Known::Other(finding) => {
                if finding.knows_answers() {
                    Some(&findings.call)
                } else {
                    None
                }
            }
        }
    }

    /// A row that covers only loose ends that change nothing, where there is one.
    pub(crate) fn loose_cover<'a>(&'a self, findings: &'a Findings) -> Option<&'a Row>
        requires fits { ∥ FitsIn (mode_of findings.now.mode) findings.now.call (found_by self.now) ∥₁ }
        requires known { ∥ IsKnown findings.now.call self.now ∥₁ }
        ensures { IfSome result (λ w. (r : RowValue) → lattice.IsUnder findings.now.call r → RowCovers w.now r
            → lattice.add_loose (mode_of findings.now.mode) r (finding_by (found_by self.now))
            ≡ finding_by (found_by self.now)) }
    {
        match self {
            Known::Most(leaves) => leaves.loose_cover(&findings.call),
            Known::Other(finding) => {
                if finding.knows_loose() {
                    Some(&findings.call)
                } else {
                    None
                }
            }
        }
    }

    /// Whether nothing that comes in later can change what it comes to.
    pub(crate) fn is_settled(&self, findings: &Findings) -> bool
        requires fits { ∥ FitsIn (mode_of findings.now.mode) findings.now.call (found_by self.now) ∥₁ }
        requires known { ∥ IsKnown findings.now.call self.now ∥₁ }
        ensures { result ≡ settled_by findings.now.call (found_by self.now) }
    {
        match self {
            Known::Most(leaves) => leaves.settled,
            Known::Other(finding) => findings.settled(finding),
        }
    }

    /// The finding that is kept.
    pub(crate) fn finding(&mut self, findings: &Findings) -> Result<Finding, AllocError>
        requires known { ∥ IsKnown findings.now.call self.old ∥₁ }
        ensures same { found_by self.new ≡ found_by self.old }
        ensures known { ∥ IsKnown findings.now.call self.new ∥₁ }
        ensures found { IfOk result (λ finding. finding ≡ found_by self.old) }
    {
        match self {
            Known::Most(leaves) => leaves.finding(findings.alloc, &findings.call),
            Known::Other(finding) => finding.copy(),
        }
    }
}
