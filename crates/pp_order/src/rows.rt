//! Whether one row covers another.
ghost use Rattle.std.specs.Prelude.{◌≡◌, ◌↔◌, IfOk, IsTrue};
ghost use Rattle.pp_algebra.specs.Terms.{count};
ghost use Rattle.pp_algebra.specs.Covers.{RowCovers};

use crate::walk::covers_term;
use pp_row::Row;
use smallvec::SmallVec;
use std::alloc::{AllocError, Global};

/// Whether the first row covers the second.
pub fn covers(alloc: Global, general: &Row, special: &Row) -> Result<bool, AllocError>
    requires same_width { count general.now.columns ≡ count special.now.columns }
    ensures { IfOk result (λ b. IsTrue b ↔ RowCovers general.now special.now) }
{
    let left = general.columns();
    let right = special.columns();
    let general_domains = general.domains();
    let special_domains = special.domains();
    let mut bound = SmallVec::new(alloc);
    for (k, column) in left.iter().enumerate() {
        if !covers_term(
            column,
            &right[k],
            &mut bound,
            general_domains,
            special_domains,
        )? {
            return Ok(false);
        }
    }
    Ok(true)
}
