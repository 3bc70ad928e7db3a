//! What is known of a goal's leaves while they come in.
ghost use Rattle.std.specs.Prelude.{◌≡◌, IfOk, IfSome, OnErr};
ghost use Rattle.pp_algebra.specs.Rows.{Row as RowValue};
ghost use Rattle.pp_algebra.specs.Covers.{RowCovers};
ghost use Rattle.pp_sld.specs.Findings as sld;
ghost use Rattle.pp_sld.specs.Lattice as lattice;
ghost use Rattle.pp_term.specs.Meanings.{mode_of};
ghost use Rattle.pp_find.specs.Meanings.{finding_by, outcome_by, settled_by, FitsIn};

use crate::known::Known;
use crate::{Finding, Findings, Verdict};
use pp_row::Row;
use pp_space::Lattice;
use pp_term::Mode;
use std::alloc::{AllocError, Global};
use std::marker::Model;

/// A finding of this mode and call that is changed in place as leaves come in. With `most` it keeps several rows in
/// place of one, so that an answer is not joined with all that the answers before it have in common.
#[derive(Debug, Drop)]
pub struct Collector {
    findings: Findings,
    known: Known,
}

impl Model for Collector {
    ghost use Rattle.pp_term.specs.Meanings.{mode_of};
    ghost use Rattle.pp_find.specs.Meanings.{FitsIn};
    ghost use Rattle.pp_find.specs.Collected.{Collected, collected_code, found_by, IsKnown};

    ghost Value = { Collected };

    ghost coded = { collected_code };

    ghost view = { λ s. record { mode = s.findings.mode; call = s.findings.call; finding = found_by s.known } };

    ghost invariant = { λ s. ∥ FitsIn (mode_of s.findings.mode) s.findings.call (found_by s.known) ∥₁
        × ∥ IsKnown s.findings.call s.known ∥₁ };
}

impl Collector {
    /// Nothing yet, of this mode and call.
    pub fn new(alloc: Global, mode: Mode, call: Row) -> Collector
        ensures mode { result.mode ≡ mode }
        ensures call { result.call ≡ call }
        ensures empty { finding_by result.finding ≡ sld.empty (mode_of mode) }
    {
        let findings = Findings::new(alloc, mode, call);
        let known = Known::new(&findings);
        Collector { findings, known }
    }

    /// One answer more. A row that `answer_cover` covers is to be left out by the caller first: with `most` it isn't
    /// tested against that one again, but joined, which changes nothing. Of a row that another one covers nothing is
    /// kept.
    pub fn add_answer(&mut self, row: Row) -> Result<(), AllocError>
        requires under { RowCovers self.old.call row }
        ensures mode { self.new.mode ≡ self.old.mode }
        ensures call { self.new.call ≡ self.old.call }
        ensures added { IfOk result (λ _.
            finding_by self.new.finding ≡ lattice.add_answer (mode_of self.old.mode) row
            (finding_by self.old.finding)) }
        ensures err { OnErr result (self.new.finding ≡ self.old.finding) }
    {
        let Collector { findings, known } = self;
        known.add_answer(findings, row)
    }

    /// One loose end more. A row that `loose_cover` covers is to be left out by the caller first: with `most` it isn't
    /// tested against that one again, but joined, which changes nothing. Of a row that another one covers nothing is
    /// kept.
    pub fn add_loose(&mut self, row: Row) -> Result<(), AllocError>
        requires under { RowCovers self.old.call row }
        ensures mode { self.new.mode ≡ self.old.mode }
        ensures call { self.new.call ≡ self.old.call }
        ensures added { IfOk result (λ _.
            finding_by self.new.finding ≡ lattice.add_loose (mode_of self.old.mode) row (finding_by self.old.finding)) }
        ensures err { OnErr result (self.new.finding ≡ self.old.finding) }
    {
        let Collector { findings, known } = self;
        known.add_loose(findings, row)
    }

    /// A row that covers only answers that change nothing, where there is one.
    pub fn answer_cover(&self) -> Option<&Row>
        ensures { IfSome result (λ cover. (row : RowValue) → lattice.IsUnder self.now.call row → RowCovers cover.now row
            → lattice.add_answer (mode_of self.now.mode) row (finding_by self.now.finding)
            ≡ finding_by self.now.finding) }
    {
        self.known.answer_cover(&self.findings)
    }

    /// A row that covers only loose ends that change nothing, where there is one.
    pub fn loose_cover(&self) -> Option<&Row>
        ensures { IfSome result (λ cover. (row : RowValue) → lattice.IsUnder self.now.call row → RowCovers cover.now row
            → lattice.add_loose (mode_of self.now.mode) row (finding_by self.now.finding)
            ≡ finding_by self.now.finding) }
    {
        self.known.loose_cover(&self.findings)
    }

    /// Whether nothing that comes in later can change the outcome.
    pub fn is_settled(&self) -> bool
        ensures { result ≡ settled_by self.now.call self.now.finding }
    {
        self.known.is_settled(&self.findings)
    }

    /// The finding. What it stands for stays.
    pub fn finding(&mut self) -> Result<Finding, AllocError>
        ensures same { self.new ≡ self.old }
        ensures fits { IfOk result (λ finding. ∥ FitsIn (mode_of self.old.mode) self.old.call finding ∥₁) }
        ensures finding { IfOk result (λ finding. finding ≡ self.old.finding) }
    {
        let Collector { findings, known } = self;
        known.finding(findings)
    }

    /// What the finding comes to.
    pub fn outcome(&mut self) -> Result<Verdict, AllocError>
        ensures same { self.new ≡ self.old }
        ensures outcome { IfOk result (λ verdict. verdict ≡ outcome_by self.old.call self.old.finding) }
    {
        let finding = self.finding()?;
        self.findings.outcome(&finding)
    }
}
