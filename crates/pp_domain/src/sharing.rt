//! The integers that lie in both of two lists of intervals.
ghost use Rattle.std.specs.Prelude.{◌↔◌, ℤ, IfOk};
ghost use Rattle.pp_domain.specs.Intervals.{IsDomain, IsApartInside, Lies};

use crate::places::push_interval;
use std::alloc::{AllocError, Global};

// Goes on in the list whose interval ends first: what is left of the other may still reach its next.
pub fn shared(
    alloc: Global,
    a: &[(i64, i64)],
    b: &[(i64, i64)],
) -> Result<Vec<(i64, i64)>, AllocError>
    requires a { IsDomain a.now }
    requires b { IsDomain b.now }
    ensures apart { IfOk result (λ both. IsApartInside both.items) }
    ensures lies { IfOk result (λ both. (v : ℤ) → Lies both.items v ↔ (Lies a.now v × Lies b.now v)) }
{
    let mut both = Vec::with_capacity(alloc, a.len() + b.len() - 1)?;
    let mut i = 0;
    let mut j = 0;
    while i < a.len() && j < b.len() {
        let (a_low, a_high) = a[i];
        let (b_low, b_high) = b[j];
        push_interval(&mut both, a_low.max(b_low), a_high.min(b_high))?;
        if a_high < b_high {
            i += 1;
        } else {
            j += 1;
        }
    }
    Ok(both)
}
