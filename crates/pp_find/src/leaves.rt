//! What is kept of the leaves of a search with `most`.
ghost use Rattle.std.specs.Prelude.{◌≡◌, Some, None, false, IsTrue, IfOk, IfSome, OnErr};
ghost use Rattle.pp_algebra.specs.Rows.{Row as RowValue};
ghost use Rattle.pp_algebra.specs.Covers.{RowCovers};
ghost use Rattle.pp_sld.specs.Findings.{join_option};
ghost use Rattle.pp_sld.specs.Lattice.{IsUnder, CoversIfSome};
ghost use Rattle.pp_find.specs.Common.{common, IsKept};
ghost use Rattle.pp_find.specs.declared.finding.Finding.TheVariants.{Most};

use crate::Finding;
use crate::bound::bound_of;
use crate::levels::{add_row, any_covers, joined_rows, joined_with, put_row};
use crate::parts::{join_options, same_rows};
use pp_order::covers;
use pp_row::Row;
use std::alloc::{AllocError, Global};

/// Answers, the loose ends that no answer before them covers, and whether the answers have no more in common than the
/// call. As long as a row is known that covers the answers and not the call, they have more in common.
#[derive(Debug, Drop)]
pub(crate) struct Leaves {
    pub(crate) answers: Vec<Row>,
    pub(crate) loose: Vec<Row>,
    pub(crate) bound: Option<Row>,
    pub(crate) settled: bool,
}

impl Leaves {
    /// None yet.
    pub(crate) fn new(alloc: Global) -> Leaves
        ensures kept { (call : RowValue) → IsKept call result }
        ensures answers { common result.answers.items ≡ None }
        ensures loose { common result.loose.items ≡ None }
    {
        Leaves {
            answers: Vec::new(alloc),
            loose: Vec::new(alloc),
            bound: None,
            settled: false,
        }
    }

    /// Whether a row that doesn't cover the call is known to cover this one and all answers.
    fn is_bounded(&self, alloc: Global, call: &Row, row: &Row) -> Result<bool, AllocError>
        requires kept { ∥ IsKept call.now self.now ∥₁ }
        requires under { RowCovers call.now row.now }
        ensures { IfOk result (λ is. IsTrue is → CoversIfSome self.now.bound (Some row.now)) }
    {
        match &self.bound {
            None => Ok(false),
            Some(bound) => covers(alloc, bound, row),
        }
    }

    /// One answer more, of which nothing shows that it leaves the call unreached: all answers are joined into one row.
    fn weigh(&mut self, alloc: Global, call: &Row, row: Row) -> Result<(), AllocError>
        requires kept { ∥ IsKept call.now self.old ∥₁ }
        requires under { RowCovers call.now row }
        ensures kept { ∥ IsKept call.now self.new ∥₁ }
        ensures added { IfOk result (λ _.
            common self.new.answers.items ≡ join_option (common self.old.answers.items) (Some row)) }
        ensures err { OnErr result (common self.new.answers.items ≡ common self.old.answers.items) }
        ensures loose { self.new.loose.items ≡ self.old.loose.items }
    {
        let _canonical = row.columns();
        let whole = joined_with(alloc, &mut self.answers, row)?;
        let settled = same_rows(&whole, call);
        let bound = bound_of(alloc, &whole, call)?;
        put_row(&mut self.answers, whole)?;
        self.settled = settled;
        self.bound = bound;
        Ok(())
    }

    /// One answer more. A row that `answer_cover` covers is to be left out by the caller first: it isn't tested against
    /// that one again, but joined, which changes nothing.
    pub(crate) fn add_answer(
        &mut self,
        alloc: Global,
        call: &Row,
        row: Row,
    ) -> Result<(), AllocError>
        requires kept { ∥ IsKept call.now self.old ∥₁ }
        requires under { RowCovers call.now row }
        ensures kept { ∥ IsKept call.now self.new ∥₁ }
        ensures added { IfOk result (λ _.
            common self.new.answers.items ≡ join_option (common self.old.answers.items) (Some row)) }
        ensures err { OnErr result (common self.new.answers.items ≡ common self.old.answers.items) }
        ensures loose { self.new.loose.items ≡ self.old.loose.items }
    {
        let _canonical = row.columns();
        if any_covers(alloc, self.answers.as_slice(), 1, &row)? {
            return Ok(());
        }
        if self.is_bounded(alloc, call, &row)? {
            add_row(alloc, &mut self.answers, row)?;
            return Ok(());
        }
        self.weigh(alloc, call, row)
    }

    /// One loose end more. A row that `loose_cover` covers is to be left out by the caller first: it isn't tested
    /// against
    /// that one again, but joined, which changes nothing.
    pub(crate) fn add_loose(
        &mut self,
        alloc: Global,
        call: &Row,
        row: Row,
    ) -> Result<(), AllocError>
        requires kept { ∥ IsKept call.now self.old ∥₁ }
        requires under { RowCovers call.now row }
        ensures kept { ∥ IsKept call.now self.new ∥₁ }
        ensures answers { self.new.answers.items ≡ self.old.answers.items }
        ensures added { IfOk result (λ _.
            join_option (common self.old.answers.items) (common self.new.loose.items)
            ≡ join_option (join_option (common self.old.answers.items) (common self.old.loose.items)) (Some row)) }
        ensures err { OnErr result (common self.new.loose.items ≡ common self.old.loose.items) }
    {
        let _canonical = row.columns();
        if any_covers(alloc, self.answers.as_slice(), 1, &row)? {
            return Ok(());
        }
        let from = usize::from(self.answers.is_empty());
        if any_covers(alloc, self.loose.as_slice(), from, &row)? {
            return Ok(());
        }
        add_row(alloc, &mut self.loose, row)
    }

    /// The widest row of the answers, where there is one. One answer more that it covers changes nothing.
    pub(crate) fn answer_cover(&self, _call: &Row) -> Option<&Row>
        requires kept { ∥ IsKept _call.now self.now ∥₁ }
        ensures { IfSome result (λ w. (r : RowValue) → IsUnder _call.now r → RowCovers w.now r
            → common self.now.answers.items ≡ join_option (common self.now.answers.items) (Some r)) }
    {
        self.answers.first()
    }

    /// The same of loose ends; where there is no answer, by the widest of their own rows.
    pub(crate) fn loose_cover(&self, _call: &Row) -> Option<&Row>
        requires kept { ∥ IsKept _call.now self.now ∥₁ }
        ensures { IfSome result (λ w. (r : RowValue) → IsUnder _call.now r → RowCovers w.now r
            → join_option (common self.now.answers.items) (common self.now.loose.items)
            ≡ join_option (join_option (common self.now.answers.items) (common self.now.loose.items)) (Some r)) }
    {
        match self.answers.first() {
            Some(row) => Some(row),
            None => self.loose.first(),
        }
    }

    /// What they come to.
    pub(crate) fn finding(&mut self, alloc: Global, call: &Row) -> Result<Finding, AllocError>
        requires kept { ∥ IsKept call.now self.old ∥₁ }
        ensures kept { ∥ IsKept call.now self.new ∥₁ }
        ensures answers { common self.new.answers.items ≡ common self.old.answers.items }
        ensures loose { common self.new.loose.items ≡ common self.old.loose.items }
        ensures found { IfOk result (λ f.
            f ≡ Most (common self.old.answers.items)
            (join_option (common self.old.answers.items) (common self.old.loose.items))) }
    {
        let g = joined_rows(alloc, &mut self.answers)?;
        let loose = joined_rows(alloc, &mut self.loose)?;
        let h = join_options(alloc, &g, &loose)?;
        Ok(Finding::Most { g, h })
    }
}
