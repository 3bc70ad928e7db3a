//! The terms of a sentence's parts.
ghost use Rattle.std.specs.Prelude.{◌≡◌, IfOk};
ghost use Rattle.pp_algebra.specs.Least.{arguments};
ghost use Rattle.pp_row.specs.Reading.{tree_of, IsOneTerm};
ghost use Rattle.pp_term.specs.Meanings.{predicate_of};
ghost use Rattle.pp_row.specs.Columns.{trees_of};
ghost use Rattle.pp_build.specs.Pieces.{tree_at, HasTermAt, IsAtom, predicate_of_tree};

use pp_parse::Part;
use pp_term::{Cell, Pred, Term, Terms, end_of};
use std::alloc::{AllocError, Global};

/// The term that the cells write.
fn copy_term(alloc: Global, cells: &[Cell]) -> Result<Term, AllocError>
    requires { IsOneTerm cells.now }
    ensures { IfOk result (λ t. t ≡ tree_of cells.now) }
{
    let cells = Vec::from_slice(alloc, cells)?;
    Ok(Term::from_cells(cells).unwrap())
}

/// The arguments of the term that the cells write.
fn copy_arguments(alloc: Global, cells: &[Cell]) -> Result<Terms, AllocError>
    requires { IsOneTerm cells.now }
    ensures { IfOk result (λ ts. trees_of ts ≡ arguments (tree_of cells.now)) }
{
    let mut terms = Vec::new(alloc);
    let mut start = 1;
    while start < cells.len() {
        let end = end_of(cells, start);
        terms.push(copy_term(alloc, &cells[start..end])?)?;
        start = end;
    }
    Ok(Terms::from_vec(terms))
}

/// The term at a place.
pub(crate) fn term_at(alloc: Global, parts: &[Part], at: usize) -> Result<Term, AllocError>
    requires { HasTermAt parts.now at }
    ensures { IfOk result (λ t. t ≡ tree_at parts.now at) }
{
    match &parts[at] {
        Part::Term(phrase) => copy_term(alloc, &phrase.cells),
        Part::Mark(_) => unreachable!(),
    }
}

/// The name of an atom and its number of arguments.
fn predicate(cells: &[Cell]) -> Pred
    requires one { IsOneTerm cells.now }
    requires atom { IsAtom (tree_of cells.now) }
    ensures { predicate_of result ≡ predicate_of_tree (tree_of cells.now) }
{
    match cells[0] {
        Cell::Atom(name) => Pred { name, arity: 0 },
        Cell::Compound(name, arity) => Pred { name, arity },
        Cell::Int(_) => unreachable!(),
        Cell::Var(_) => unreachable!(),
    }
}

/// The atom with its arguments at a place.
pub(crate) fn callable_at(
    alloc: Global,
    parts: &[Part],
    at: usize,
) -> Result<(Pred, Terms), AllocError>
    requires term { HasTermAt parts.now at }
    requires atom { IsAtom (tree_at parts.now at) }
    ensures pred { IfOk result (λ r. predicate_of r.0 ≡ predicate_of_tree (tree_at parts.now at)) }
    ensures terms { IfOk result (λ r. trees_of r.1 ≡ arguments (tree_at parts.now at)) }
{
    match &parts[at] {
        Part::Term(phrase) => {
            let terms = copy_arguments(alloc, &phrase.cells)?;
            Ok((predicate(&phrase.cells), terms))
        }
        Part::Mark(_) => unreachable!(),
    }
}
