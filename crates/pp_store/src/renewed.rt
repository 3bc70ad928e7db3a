//! Columns in which some variables are replaced.
ghost use Rattle.std.specs.Prelude.{◌≡◌, ◌++◌, ◌<◌, ◌≤◌, All, IfOk, OnOk, length, map, get_or, pos};
ghost use Rattle.std.specs.List.{flat_map};
ghost use Rattle.pp_algebra.specs.Terms.{int, put};
ghost use Rattle.pp_row.specs.Cells.{IsLegalCell, cells_of};
ghost use Rattle.pp_row.specs.Columns.{trees_of};
ghost use Rattle.pp_row.specs.Substitution.{put_cell};
ghost use Rattle.pp_store.specs.Replacing.{replacement};

use indexmap::IndexSet;
use pp_term::{Cell, Term};
use std::alloc::{AllocError, Global};

/// Terms in place of the variables of these names, in their order.
#[derive(Debug, Drop)]
pub(crate) struct Replacement {
    pub names: IndexSet<u32>,
    pub terms: Vec<Term>,
}

/// Appends a variable, or the term that stands for it.
fn push_variable(out: &mut Vec<Cell>, variable: u32, by: &Replacement) -> Result<(), AllocError>
    requires many { length by.now.names.keys ≤ length by.now.terms.items }
    requires old { All IsLegalCell out.old.items }
    ensures cells { OnOk result (out.new.items
        ≡ out.old.items ++ cells_of (replacement by.now.names.keys (trees_of by.now.terms.items) variable)) }
    ensures legal { OnOk result (All IsLegalCell out.new.items) }
{
    match by.names.get_index_of(&variable) {
        Some(place) => out.extend_from_slice(by.terms[place].cells())?,
        None => out.push(Cell::Var(variable))?,
    }
    Ok(())
}

/// Appends a cell, or the term that stands for its variable.
fn push_renewed(out: &mut Vec<Cell>, cell: Cell, by: &Replacement) -> Result<(), AllocError>
    requires many { length by.now.names.keys ≤ length by.now.terms.items }
    requires cell { IsLegalCell cell }
    requires old { All IsLegalCell out.old.items }
    ensures cells { OnOk result (out.new.items
        ≡ out.old.items ++ put_cell (replacement by.now.names.keys (trees_of by.now.terms.items)) cell) }
    ensures legal { OnOk result (All IsLegalCell out.new.items) }
{
    match cell {
        Cell::Var(variable) => push_variable(out, variable, by)?,
        _ => out.push(cell)?,
    }
    Ok(())
}

/// The same of some cells.
fn renewed_cells(alloc: Global, cells: &[Cell], by: &Replacement) -> Result<Vec<Cell>, AllocError>
    requires many { length by.now.names.keys ≤ length by.now.terms.items }
    requires legal { All IsLegalCell cells.now }
    ensures cells { IfOk result (λ out.
        out.items ≡ flat_map (put_cell (replacement by.now.names.keys (trees_of by.now.terms.items))) cells.now) }
    ensures legal { IfOk result (λ out. All IsLegalCell out.items) }
{
    let mut out = Vec::with_capacity(alloc, cells.len())?;
    for cell in cells {
        push_renewed(&mut out, *cell, by)?;
    }
    Ok(out)
}

/// The term with its variables replaced.
fn renewed(alloc: Global, term: &Term, by: &Replacement) -> Result<Term, AllocError>
    requires many { length by.now.names.keys ≤ length by.now.terms.items }
    ensures { IfOk result (λ t. t ≡ put (replacement by.now.names.keys (trees_of by.now.terms.items)) term.now) }
{
    let cells = renewed_cells(alloc, term.cells(), by)?;
    let Some(term) = Term::from_cells(cells) else {
        unreachable!()
    };
    Ok(term)
}

/// These of the columns, with their variables replaced.
pub(crate) fn renewed_at(
    alloc: Global,
    columns: &[Term],
    places: &[u32],
    by: &Replacement,
) -> Result<Vec<Term>, AllocError>
    requires many { length by.now.names.keys ≤ length by.now.terms.items }
    requires places { All (λ k. k < length columns.now) places.now }
    ensures { IfOk result (λ ts. ts.items
        ≡ map (λ k. put (replacement by.now.names.keys (trees_of by.now.terms.items))
        (get_or columns.now k (int (pos 0)))) places.now) }
{
    let mut terms = Vec::with_capacity(alloc, places.len())?;
    for place in places {
        terms.push(renewed(alloc, &columns[*place as usize], by)?)?;
    }
    Ok(terms)
}
