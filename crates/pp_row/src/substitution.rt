//! Terms in place of variables.
ghost use Rattle.std.specs.Prelude.{◌≡◌, ℕ, ◌+◌, ◌<◌, ◌^◌, ◌++◌, All, IfOk, OnOk, map, [], ◌∷◌};
ghost use Rattle.std.specs.List.{flat_map};
ghost use Rattle.pp_algebra.specs.Covers.{IsIn};
ghost use Rattle.pp_row.specs.Cells.{IsLegalCell, renamed, variables_in};
ghost use Rattle.pp_row.specs.Substitution.{term_at, put_cell};

use crate::{Cell, Term};
use std::alloc::{AllocError, Global};

/// Appends a cell, or the term that stands for its variable.
fn push_replaced(out: &mut Vec<Cell>, cell: Cell, terms: &[Term]) -> Result<(), AllocError>
    requires cell { IsLegalCell cell }
    requires old { All IsLegalCell out.old.items }
    ensures cells { OnOk result (out.new.items ≡ out.old.items ++ put_cell (term_at terms.now) cell) }
    ensures legal { OnOk result (All IsLegalCell out.new.items) }
{
    match cell {
        Cell::Var(variable) if (variable as usize) < terms.len() => {
            out.extend_from_slice(terms[variable as usize].cells())?;
        }
        _ => out.push(cell)?,
    }
    Ok(())
}

/// The cells with terms in place of their variables.
pub(crate) fn replaced(
    alloc: Global,
    cells: &[Cell],
    terms: &[Term],
) -> Result<Vec<Cell>, AllocError>
    requires { All IsLegalCell cells.now }
    ensures cells { IfOk result (λ cs. cs.items ≡ flat_map (put_cell (term_at terms.now)) cells.now) }
    ensures legal { IfOk result (λ cs. All IsLegalCell cs.items) }
{
    let mut out = Vec::with_capacity(alloc, cells.len())?;
    for cell in cells {
        push_replaced(&mut out, *cell, terms)?;
    }
    Ok(out)
}

/// The cell with its variable's number counted from `first`.
fn shifted_cell(cell: Cell, first: u32) -> Cell
    requires { (v : ℕ) → IsIn v (variables_in cell) → first + v < 2 ^ 32 }
    ensures { result ≡ renamed (λ v. first + v) cell }
{
    match cell {
        Cell::Var(variable) => Cell::Var(first + variable),
        _ => cell,
    }
}

/// The cells with the numbers of their variables counted from `first`.
pub(crate) fn shifted(alloc: Global, cells: &[Cell], first: u32) -> Result<Vec<Cell>, AllocError>
    requires { All (λ c. (v : ℕ) → IsIn v (variables_in c) → first + v < 2 ^ 32) cells.now }
    ensures { IfOk result (λ cs. cs.items ≡ map (renamed (λ v. first + v)) cells.now) }
{
    let mut out = Vec::with_capacity(alloc, cells.len())?;
    for cell in cells {
        out.push(shifted_cell(*cell, first))?;
    }
    Ok(out)
}
