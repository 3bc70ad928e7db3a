//! The findings of one goal, and what comes in.
ghost use Rattle.std.specs.Prelude.{◌≡◌, Some, IfOk, OnErr};
ghost use Rattle.pp_algebra.specs.Covers.{RowCovers};
ghost use Rattle.pp_sld.specs.Verdicts.{most};
ghost use Rattle.pp_sld.specs.Findings.{finds_most, join_option};
ghost use Rattle.pp_sld.specs.Lattice.{UnderIfSome};
ghost use Rattle.pp_sld.specs.Lattice as lattice;
ghost use Rattle.pp_term.specs.Meanings.{mode_of};
ghost use Rattle.pp_find.specs.Meanings.{finding_by, FitsIn};

use crate::Finding;
use crate::parts::{grown, take_sole};
use pp_row::Row;
use pp_term::Mode;
use std::alloc::{AllocError, Global};

/// The findings of a goal of this mode, whose face has this call.
#[derive(Debug, Drop)]
pub struct Findings {
    pub mode: Mode,
    pub call: Row,
    pub(crate) alloc: Global,
}

impl Findings {
    /// The findings of this mode and call.
    pub fn new(alloc: Global, mode: Mode, call: Row) -> Findings
        ensures mode { result.mode ≡ mode }
        ensures call { result.call ≡ call }
    {
        Findings { mode, call, alloc }
    }

    /// A copy.
    pub fn copy(&self) -> Result<Findings, AllocError>
        ensures mode { IfOk result (λ findings. findings.mode ≡ self.now.mode) }
        ensures call { IfOk result (λ findings. findings.call ≡ self.now.call) }
    {
        Ok(Findings {
            mode: self.mode,
            call: self.call.copy()?,
            alloc: self.alloc,
        })
    }

    /// One row more to what some have in common.
    fn grow(&self, known: &mut Option<Row>, row: &Row) -> Result<(), AllocError>
        requires known { ∥ UnderIfSome self.now.call known.old ∥₁ }
        requires under { RowCovers self.now.call row.now }
        ensures grown { IfOk result (λ _. known.new ≡ join_option known.old (Some row.now)) }
        ensures err { OnErr result (known.new ≡ known.old) }
    {
        if let Some(grown) = grown(self.alloc, known, row)? {
            *known = Some(grown);
        }
        Ok(())
    }

    /// One answer more to what the answers have in common, and the answers with the loose ends. Where the first covers
    /// it, so does the second.
    fn grow_both(
        &self,
        g: &mut Option<Row>,
        h: &mut Option<Row>,
        row: &Row,
    ) -> Result<(), AllocError>
        requires fits { ∥ lattice.Fits most self.now.call (finds_most g.old h.old) ∥₁ }
        requires under { RowCovers self.now.call row.now }
        ensures answers { IfOk result (λ _. g.new ≡ join_option g.old (Some row.now)) }
        ensures leaves { IfOk result (λ _. h.new ≡ join_option h.old (Some row.now)) }
        ensures err_answers { OnErr result (g.new ≡ g.old) }
        ensures err_leaves { OnErr result (h.new ≡ h.old) }
    {
        let Some(answers) = grown(self.alloc, g, row)? else {
            return Ok(());
        };
        self.grow(h, row)?;
        *g = Some(answers);
        Ok(())
    }

    /// One answer more. Where the answers so far have a row in common that covers it, that costs one cover test.
    pub fn take_answer(&self, finding: &mut Finding, row: Row) -> Result<(), AllocError>
        requires fits { ∥ FitsIn (mode_of self.now.mode) self.now.call finding.old ∥₁ }
        requires under { RowCovers self.now.call row }
        ensures fits { ∥ FitsIn (mode_of self.now.mode) self.now.call finding.new ∥₁ }
        ensures taken { IfOk result (λ _.
            finding_by finding.new ≡ lattice.add_answer (mode_of self.now.mode) row (finding_by finding.old)) }
        ensures err { OnErr result (finding.new ≡ finding.old) }
    {
        let _canonical = row.columns();
        match finding {
            Finding::Most { g, h } => self.grow_both(g, h, &row)?,
            Finding::Unique { sole, .. } => take_sole(sole, row),
            Finding::Consistent { any, .. } => *any = true,
        }
        Ok(())
    }

    /// One loose end more. Where a row is known that covers it, that costs one cover test.
    pub fn take_loose(&self, finding: &mut Finding, row: &Row) -> Result<(), AllocError>
        requires fits { ∥ FitsIn (mode_of self.now.mode) self.now.call finding.old ∥₁ }
        requires under { RowCovers self.now.call row.now }
        ensures fits { ∥ FitsIn (mode_of self.now.mode) self.now.call finding.new ∥₁ }
        ensures taken { IfOk result (λ _.
            finding_by finding.new ≡ lattice.add_loose (mode_of self.now.mode) row.now (finding_by finding.old)) }
        ensures err { OnErr result (finding.new ≡ finding.old) }
    {
        let _canonical = row.columns();
        match finding {
            Finding::Most { h, .. } => self.grow(h, row)?,
            Finding::Unique { loose, .. } => *loose = true,
            Finding::Consistent { loose, .. } => *loose = true,
        }
        Ok(())
    }

    /// The finding with one answer more.
    pub fn add_answer(&self, finding: &Finding, row: &Row) -> Result<Finding, AllocError>
        requires fits { ∥ FitsIn (mode_of self.now.mode) self.now.call finding.now ∥₁ }
        requires under { RowCovers self.now.call row.now }
        ensures fits { IfOk result (λ more. ∥ FitsIn (mode_of self.now.mode) self.now.call more ∥₁) }
        ensures added { IfOk result (λ more.
            finding_by more ≡ lattice.add_answer (mode_of self.now.mode) row.now (finding_by finding.now)) }
    {
        let mut more = finding.copy()?;
        self.take_answer(&mut more, row.copy()?)?;
        Ok(more)
    }

    /// The finding with one loose end more.
    pub fn add_loose(&self, finding: &Finding, row: &Row) -> Result<Finding, AllocError>
        requires fits { ∥ FitsIn (mode_of self.now.mode) self.now.call finding.now ∥₁ }
        requires under { RowCovers self.now.call row.now }
        ensures fits { IfOk result (λ more. ∥ FitsIn (mode_of self.now.mode) self.now.call more ∥₁) }
        ensures added { IfOk result (λ more.
            finding_by more ≡ lattice.add_loose (mode_of self.now.mode) row.now (finding_by finding.now)) }
    {
        let mut more = finding.copy()?;
        self.take_loose(&mut more, row)?;
        Ok(more)
    }
}
