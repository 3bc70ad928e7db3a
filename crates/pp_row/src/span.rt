//! Where a term among cells ends.
ghost use Rattle.std.specs.Prelude.{◌≡◌, ◌<◌, ◌≤◌, ◌+◌, length};
ghost use Rattle.pp_algebra.specs.Least.{first, rest};
ghost use Rattle.pp_row.specs.Reading.{IsForest, IsOneTerm, from, tree_of};

use crate::Cell;

/// Where the term ends that begins at `start`, among the cells of whole terms. It costs the cells of the term.
pub fn end_of(cells: &[Cell], start: usize) -> usize
    requires whole { IsForest cells.now }
    requires within { start < length cells.now }
    ensures ends { from cells.now result ≡ rest (from cells.now start) }
    ensures later { start < result }
    ensures within { result ≤ length cells.now }
{
    let mut need: usize = 1;
    let mut end: usize = start;
    while need > 0 {
        need = need - 1 + cells[end].arity() as usize;
        end += 1;
    }
    end
}

/// The cells of the term that begins at `start`, among the cells of whole terms.
pub fn term_from(cells: &[Cell], start: usize) -> &[Cell]
    requires whole { IsForest cells.now }
    requires within { start < length cells.now }
    ensures whole { IsOneTerm result.now }
    ensures term { tree_of result.now ≡ first (from cells.now start) }
    ensures ends { from cells.now (start + length result.now) ≡ rest (from cells.now start) }
    ensures within { start + length result.now ≤ length cells.now }
    ensures some { 0 < length result.now }
{
    &cells[start..end_of(cells, start)]
}
