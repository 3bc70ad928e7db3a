//! The limits that a statement passes.
ghost use Rattle.std.specs.Prelude.{◌≡◌, ◌+◌, ◌<◌, ◌^◌, length, count_by};
ghost use Rattle.std.specs.List.{list_any};
ghost use Rattle.pp_language.specs.Limits.{is_above};
ghost use Rattle.pp_row.specs.Cells.{arity_of};
ghost use Rattle.pp_read.specs.Passed.{is_wide, is_infer, clause_passed, query_passed};

use pp_language::{
    ARITY_LIMIT, CLAUSE_LIMIT, CLAUSE_VARIABLE_LIMIT, GOAL_LIMIT, QUERY_VARIABLE_LIMIT, Which,
};
use pp_parse::{Entry, Part, Variables};
use pp_term::Cell;

/// Whether the cell has too many arguments.
fn is_wide_cell(cell: Cell) -> bool
    ensures { result ≡ is_above 255 (arity_of cell) }
{
    cell.arity() as usize > ARITY_LIMIT
}

fn any_wide_cell(cells: &[Cell]) -> bool
    ensures { result ≡ list_any (λ c. is_above 255 (arity_of c)) cells.now }
{
    cells.iter().any(|cell| is_wide_cell(*cell))
}

/// Whether some atom of the part has too many arguments.
fn is_wide(part: &Part) -> bool
    ensures { result ≡ is_wide part.now }
{
    match part {
        Part::Term(phrase) => any_wide_cell(&phrase.cells),
        Part::Mark(_) => false,
    }
}

fn any_wide(parts: &[Part]) -> bool
    ensures { result ≡ list_any is_wide parts.now }
{
    parts.iter().any(is_wide)
}

/// How many goals the items annotate.
fn count_goals(entries: &[Entry]) -> usize
    ensures { result ≡ count_by is_infer entries.now }
{
    entries
        .iter()
        .filter(|entry| matches!(entry, Entry::Infer(_, _)))
        .count()
}

/// The first limit that a clause passes, with so many clauses before it.
pub(crate) fn clause_limit(clauses: usize, parts: &[Part], variables: &Variables) -> Option<Which>
    requires { length variables.now.named + variables.now.blanks < 2 ^ 32 }
    ensures { result ≡ clause_passed clauses parts.now (length variables.now.named + variables.now.blanks) }
{
    if clauses >= CLAUSE_LIMIT {
        Some(Which::Clauses)
    } else if any_wide(parts) {
        Some(Which::Arity)
    } else if variables.named.len() + variables.blanks as usize > CLAUSE_VARIABLE_LIMIT {
        Some(Which::Variables)
    } else {
        None
    }
}

/// The first limit that a query passes.
pub(crate) fn query_limit(parts: &[Part], variables: &Variables, entries: &[Entry]) -> Option<Which>
    requires { length variables.now.named + variables.now.blanks < 2 ^ 32 }
    ensures { result ≡ query_passed parts.now (length variables.now.named + variables.now.blanks) entries.now }
{
    if any_wide(parts) {
        Some(Which::Arity)
    } else if variables.named.len() + variables.blanks as usize > QUERY_VARIABLE_LIMIT {
        Some(Which::Variables)
    } else if count_goals(entries) > GOAL_LIMIT {
        Some(Which::Goals)
    } else {
        None
    }
}
