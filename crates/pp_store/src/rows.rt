//! Lists of terms and domains, and a goal's face under columns that may have any numbers.
ghost use Rattle.std.specs.Prelude.{◌≡◌, ◌++◌, [], length, map, IfOk, OnOk, nat_eq};
ghost use Rattle.pp_algebra.specs.Canon.{firsts, canon};
ghost use Rattle.pp_algebra.specs.Numbered.{variables_from, column};
ghost use Rattle.pp_algebra.specs.Rows.{AreWide};
ghost use Rattle.pp_algebra.specs.Terms.{put, put_all, variable, variables_all};
ghost use Rattle.pp_propagation.specs.Stores.{face};
ghost use Rattle.pp_row.specs.Cells.{variables_among, variables_in};
ghost use Rattle.pp_row.specs.Columns.{pattern_by, sets_of, trees_of};
ghost use Rattle.pp_row.specs.Substitution.{term_at};
ghost use Rattle.pp_term.specs.WellFormed.{AreBelow};
ghost use Rattle.pp_store.specs.Replacing.{OfGoal};

use indexmap::IndexSet;
use pp_domain::Domain;
use pp_row::copy_domain;
use pp_term::{Cell, Row, Term};
use std::alloc::{AllocError, Global};

/// The variables from 0 on, `count` of them.
pub(crate) fn variables(alloc: Global, count: u32) -> Result<Vec<Term>, AllocError>
    ensures { IfOk result (λ ts. trees_of ts.items ≡ variables_from 0 count) }
{
    let mut columns = Vec::with_capacity(alloc, count as usize)?;
    for variable in 0..count {
        columns.push(Term::variable(alloc, variable)?)?;
    }
    Ok(columns)
}

/// The variables of these numbers.
pub(crate) fn variables_by(alloc: Global, numbers: &[u32]) -> Result<Vec<Term>, AllocError>
    ensures { IfOk result (λ ts. ts.items ≡ map variable numbers.now) }
{
    let mut terms = Vec::with_capacity(alloc, numbers.len())?;
    for number in numbers {
        terms.push(Term::variable(alloc, *number)?)?;
    }
    Ok(terms)
}

/// The columns with terms in place of their variables.
pub(crate) fn replaced(
    alloc: Global,
    columns: &[Term],
    terms: &[Term],
) -> Result<Vec<Term>, AllocError>
    ensures { IfOk result (λ ts. ts.items ≡ map (put (term_at terms.now)) columns.now) }
{
    let mut replaced = Vec::with_capacity(alloc, columns.len())?;
    for column in columns {
        replaced.push(column.substituted(terms)?)?;
    }
    Ok(replaced)
}

/// Copies of terms.
pub(crate) fn copies(alloc: Global, terms: &[Term]) -> Result<Vec<Term>, AllocError>
    ensures { IfOk result (λ ts. ts.items ≡ terms.now) }
{
    let mut copies = Vec::with_capacity(alloc, terms.len())?;
    for term in terms {
        copies.push(term.copy()?)?;
    }
    Ok(copies)
}

/// Copies of domains.
pub(crate) fn domain_copies(
    alloc: Global,
    domains: &[Option<Domain>],
) -> Result<Vec<Option<Domain>>, AllocError>
    ensures { IfOk result (λ ds. ds.items ≡ domains.now) }
{
    let mut copies = Vec::with_capacity(alloc, domains.len())?;
    for domain in domains {
        copies.push(copy_domain(domain)?)?;
    }
    Ok(copies)
}

/// A goal's arguments, with the columns in place of the variables.
fn arguments_under(
    alloc: Global,
    columns: &[Term],
    arguments: &[Term],
) -> Result<Vec<Term>, AllocError>
    requires { AreBelow (length columns.now) arguments.now }
    ensures { IfOk result (λ ts. ts.items ≡ map (put (column (trees_of columns.now))) arguments.now) }
{
    let mut terms = Vec::with_capacity(alloc, arguments.len())?;
    for argument in arguments {
        terms.push(argument.substituted(columns)?)?;
    }
    Ok(terms)
}

/// The face of a goal of these arguments. It costs the face.
pub(crate) fn face(
    alloc: Global,
    columns: &[Term],
    domains: &[Option<Domain>],
    arguments: &[Term],
) -> Result<Row, AllocError>
    requires below { AreBelow (length columns.now) arguments.now }
    requires wide { AreWide (sets_of domains.now) }
    ensures { IfOk result (λ r. OfGoal arguments.now
        (λ g. r ≡ face (canon nat_eq (pattern_by columns.now domains.now)) g)) }
{
    let terms = arguments_under(alloc, columns, arguments)?;
    Row::canon(alloc, terms, domains)
}

/// Takes in the variable of a cell.
fn take_variable(names: &mut IndexSet<u32>, cell: &Cell) -> Result<(), AllocError>
    ensures { OnOk result (names.new.keys ≡ firsts nat_eq names.old.keys (variables_in cell.now)) }
{
    if let Cell::Var(variable) = *cell {
        names.insert(variable)?;
    }
    Ok(())
}

/// Takes in the variables of these cells.
fn take_variables(names: &mut IndexSet<u32>, cells: &[Cell]) -> Result<(), AllocError>
    ensures { OnOk result (names.new.keys ≡ firsts nat_eq names.old.keys (variables_among cells.now)) }
{
    for cell in cells {
        take_variable(names, cell)?;
    }
    Ok(())
}

/// The variables of terms in order of first occurrence.
fn variables_of(alloc: Global, terms: &[Term]) -> Result<IndexSet<u32>, AllocError>
    ensures { IfOk result (λ names. names.keys ≡ firsts nat_eq [] (variables_all (trees_of terms.now))) }
{
    let mut names = IndexSet::new(alloc);
    for term in terms {
        take_variables(&mut names, term.cells())?;
    }
    Ok(names)
}

/// The variables in the face of a goal of these arguments, in order of first occurrence.
pub(crate) fn face_names(
    alloc: Global,
    columns: &[Term],
    arguments: &[Term],
) -> Result<IndexSet<u32>, AllocError>
    requires { AreBelow (length columns.now) arguments.now }
    ensures { IfOk result (λ names.
        names.keys ≡ firsts nat_eq [] (variables_all
        (put_all (column (trees_of columns.now)) (trees_of arguments.now)))) }
{
    let terms = arguments_under(alloc, columns, arguments)?;
    variables_of(alloc, &terms)
}
