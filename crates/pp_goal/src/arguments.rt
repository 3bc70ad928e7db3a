//! The arguments of a goal, where they stand.
ghost use Rattle.std.specs.Prelude.{◌≡◌, ◌<◌, length};
ghost use Rattle.pp_algebra.specs.Terms.{count};
ghost use Rattle.pp_algebra.specs.Givens.{given};
ghost use Rattle.pp_algebra.specs.Numbered.{column};
ghost use Rattle.pp_heap.specs.Values.{term_at};
ghost use Rattle.pp_row.specs.Givens.{given_of};
ghost use Rattle.pp_row.specs.Reading.{IsForest, forest};
ghost use Rattle.pp_unify.specs.States.{present};
ghost use Rattle.pp_clause.specs.Firsts.{first_of};
ghost use Rattle.pp_goal.specs.Arguments.{IsLent, terms_in};

use pp_clause::{First, GoalAt};
use pp_row::{Cell, Given, end_of};
use pp_unify::Bindings;

/// Where the term at a place begins, among the cells of whole terms.
pub(crate) fn place_of(cells: &[Cell], place: usize) -> usize
    requires whole { IsForest cells.now }
    requires place { place < count (forest cells.now) }
    ensures within { result < length cells.now }
    ensures term { term_at cells.now result ≡ column (forest cells.now) place }
{
    let mut at = 0;
    for _ in 0..place {
        at = end_of(cells, at);
    }
    at
}

/// What the goal's argument at a place is now.
pub(crate) fn argument(bindings: &Bindings, goal: &GoalAt<'_>, first: u32, place: usize) -> Given
    requires lent { IsLent (present bindings.now) goal.now first }
    requires place { place < count (forest goal.now.arguments.now) }
    ensures { given_of result ≡ given (present bindings.now).domains
        (column (terms_in (present bindings.now) goal.now first) place) }
{
    bindings.value_at(goal.arguments, place_of(goal.arguments, place), first)
}

/// What is known of the goal's first argument, by which the clauses are looked up that may match it.
pub fn first_argument(bindings: &Bindings, goal: &GoalAt<'_>, first: u32) -> First
    requires lent { IsLent (present bindings.now) goal.now first }
    ensures { result ≡ first_of (terms_in (present bindings.now) goal.now first) }
{
    if goal.arguments.is_empty() {
        return First::Free;
    }
    match bindings.first_cell(goal.arguments, 0, first) {
        Some(Cell::Int(value)) => First::Int(value),
        Some(Cell::Atom(name)) => First::Atom(name),
        Some(Cell::Compound(name, arity)) => First::Functor(name, arity),
        _ => First::Free,
    }
}
