//! The variables that occur in terms.
ghost use Rattle.std.specs.Prelude.{◌≡◌, IfOk};
ghost use Rattle.pp_algebra.specs.Terms.{variables_all};
ghost use Rattle.pp_print.specs.Marks.{cell_variables, Marks, AddsMarks};
ghost use Rattle.pp_row.specs.Columns.{trees_of};

use pp_term::{Cell, Term};
use std::alloc::{AllocError, Global};

/// Marks the variables of the cells.
fn mark(marks: &mut [bool], cells: &[Cell])
    ensures { AddsMarks (cell_variables cells.now) marks.old marks.new }
{
    for cell in cells {
        if let Cell::Var(variable) = cell {
            let variable = *variable as usize;
            if variable < marks.len() {
                marks[variable] = true;
            }
        }
    }
}

/// For each variable below a number whether it occurs in one of the terms. It is one walk over their cells.
pub(crate) fn occurring(
    alloc: Global,
    terms: &[Term],
    variables: usize,
) -> Result<Vec<bool>, AllocError>
    ensures { IfOk result (λ marks. Marks variables (variables_all (trees_of terms.now)) marks.items) }
{
    let mut marks = vec![in alloc; false; variables]?;
    for term in terms {
        mark(&mut marks, term.cells());
    }
    Ok(marks)
}
