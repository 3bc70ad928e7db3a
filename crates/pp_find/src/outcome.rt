//! What a finding comes to.
ghost use Rattle.std.specs.Prelude.{◌≡◌, IfOk};
ghost use Rattle.pp_sld.specs.Verdicts.{verdict_most};
ghost use Rattle.pp_sld.specs.Findings.{outcome_unique, outcome_consistent};
ghost use Rattle.pp_find.specs.Meanings.{sole_by, verdict_to};

use crate::parts::same_rows;
use crate::{Sole, Verdict};
use pp_row::Row;
use std::alloc::AllocError;

/// The verdict with `most`, from what the answers have in common and what the answers and loose ends have in common.
pub(crate) fn most(call: &Row, g: &Option<Row>, h: &Option<Row>) -> Result<Verdict, AllocError>
    ensures { IfOk result (λ v. v ≡ verdict_to (verdict_most call.now g.now h.now)) }
{
    match (g, h) {
        (None, None) => Ok(Verdict::Fail),
        (Some(g), Some(h)) => {
            if same_rows(g, call) {
                Ok(Verdict::Same)
            } else if same_rows(g, h) {
                Ok(Verdict::Narrow(g.copy()?))
            } else {
                Ok(Verdict::Unfinished)
            }
        }
        _ => Ok(Verdict::Unfinished),
    }
}

/// The verdict with `unique`.
pub(crate) fn unique(call: &Row, sole: &Sole, loose: bool) -> Result<Verdict, AllocError>
    ensures { IfOk result (λ v. v ≡ verdict_to (outcome_unique call.now (sole_by sole.now) loose)) }
{
    match (sole, loose) {
        (Sole::Two, _) => Ok(Verdict::Nothing),
        (_, true) => Ok(Verdict::Unfinished),
        (Sole::None, false) => Ok(Verdict::Fail),
        (Sole::One(row), false) => {
            if same_rows(row, call) {
                Ok(Verdict::Same)
            } else {
                Ok(Verdict::Narrow(row.copy()?))
            }
        }
    }
}

/// The verdict with `consistent`.
pub(crate) fn consistent(any: bool, loose: bool) -> Verdict
    ensures { result ≡ verdict_to (outcome_consistent any loose) }
{
    if any {
        Verdict::Nothing
    } else if loose {
        Verdict::Unfinished
    } else {
        Verdict::Fail
    }
}
