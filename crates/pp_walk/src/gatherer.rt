//! What a walk gathers.

use pp_row::Row;
use std::alloc::AllocError;

/// A value that stands for the leaves that a walk has met: what they come to is its finding. It is of one call in
/// one mode, and each row that it is given lies under that call.
pub trait Gatherer {
    ghost use Rattle.std.specs.Prelude.{◌≡◌, IfOk, IfSome};
    ghost use Rattle.pp_algebra.specs.Covers.{RowCovers};
    ghost use Rattle.pp_algebra.specs.Rows.{Row as RowValue};
    ghost use Rattle.pp_sld.specs.Verdicts.{Mode};
    ghost use Rattle.pp_sld.specs.Findings.{Finding, settled};
    ghost use Rattle.pp_sld.specs.Lattice.{IsUnder, add_answer, add_loose};

    ghost mode: { Self → Mode };

    ghost call: { Self → RowValue };

    ghost finding: { Self → Finding };

    /// One answer more.
    fn add_answer(&mut self, row: Row) -> Result<(), AllocError>
        requires { IsUnder (call self.old) row }
        ensures mode { mode self.new ≡ mode self.old }
        ensures call { call self.new ≡ call self.old }
        ensures added { IfOk result (λ _. finding self.new ≡ add_answer (mode self.old) row (finding self.old)) };

    /// One loose end more.
    fn add_loose(&mut self, row: Row) -> Result<(), AllocError>
        requires { IsUnder (call self.old) row }
        ensures mode { mode self.new ≡ mode self.old }
        ensures call { call self.new ≡ call self.old }
        ensures added { IfOk result (λ _. finding self.new ≡ add_loose (mode self.old) row (finding self.old)) };

    /// A row that covers only answers that change nothing, where there is one.
    fn answer_cover(&self) -> Option<&Row>
        ensures { IfSome result (λ cover. (row : RowValue) → IsUnder (call self.now) row → RowCovers cover.now row
            → add_answer (mode self.now) row (finding self.now) ≡ finding self.now) };

    /// A row that covers only loose ends that change nothing, where there is one.
    fn loose_cover(&self) -> Option<&Row>
        ensures { IfSome result (λ cover. (row : RowValue) → IsUnder (call self.now) row → RowCovers cover.now row
            → add_loose (mode self.now) row (finding self.now) ≡ finding self.now) };

    /// Whether nothing that comes in later can change what the finding comes to.
    fn is_settled(&self) -> bool
        ensures { result ≡ settled (call self.now) (finding self.now) };
}
