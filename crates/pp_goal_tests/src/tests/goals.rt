//! Goals as these tests write them: each argument is one cell, and a variable is that of the bindings.
ghost use Rattle.std.specs.Prelude.{◌≡◌, ◌↔◌, All, IsTrue, length};
ghost use Rattle.pp_algebra.specs.Rows.{IsWide};
ghost use Rattle.pp_row.specs.Columns.{set_by};
ghost use Rattle.pp_unify.specs.States.{present};
ghost use Rattle.pp_goal.specs.Arguments.{arity_of, HasArity, IsLent};
ghost use Rattle.pp_goal_tests.specs.Plain.{IsPlain};

use pp_clause::{GoalAt, Kind};
use pp_domain::Domain;
use pp_row::{Cell, Given};
use pp_tests::Test;
use pp_unify::Bindings;
use std::alloc::Global;
use std::process::Abort;

/// No domain, or a range of two integers or more.
fn wide(rt: &impl Abort, alloc: Global, range: Option<(i8, i8)>) -> Option<Domain>
    ensures { IsWide (set_by result) }
{
    let (low, high) = range?;
    let domain = Domain::range(alloc, i64::from(low), i64::from(high))
        .expect(rt, "memory")
        .expect(rt, "a domain");
    if domain.size() < 2 {
        None
    } else {
        Some(domain)
    }
}

/// Variables of these domains.
pub fn variables(rt: &impl Abort, alloc: Global, domains: &[Option<(i8, i8)>]) -> Bindings {
    let mut bindings = Bindings::new(alloc);
    for domain in domains {
        bindings.add(wide(rt, alloc, *domain)).expect(rt, "memory");
    }
    bindings
}

/// Whether the cell is a term by itself, over so many variables.
fn is_plain(cell: Cell, count: usize) -> bool
    ensures { IsTrue result ↔ IsPlain count cell }
{
    match cell {
        Cell::Int(value) => 0 <= value && value <= 1000,
        Cell::Atom(_) => true,
        Cell::Compound(_, _) => false,
        Cell::Var(variable) => (variable as usize) < count,
    }
}

fn all_plain(cells: &[Cell], count: usize) -> bool
    ensures { IsTrue result ↔ All (IsPlain count) cells.now }
{
    cells.iter().all(|cell| is_plain(*cell, count))
}

fn arity(test: Test) -> usize
    ensures { result ≡ arity_of test }
{
    match test {
        Test::Plus | Test::Times => 3,
        Test::Indomain => 1,
        _ => 2,
    }
}

fn has_arity(goal: &GoalAt<'_>) -> bool
    ensures { IsTrue result → HasArity goal.now.kind (length goal.now.arguments.now) }
{
    match goal.kind {
        Kind::User(_) => true,
        Kind::Equate => goal.arguments.len() == 2,
        Kind::Member(_) => goal.arguments.len() == 1,
        Kind::Test(test) => goal.arguments.len() == arity(test),
    }
}

/// Whether the goal is over the variables of the bindings, with as many arguments as its kind has.
pub fn is_lent(bindings: &Bindings, goal: &GoalAt<'_>) -> bool
    ensures { IsTrue result → IsLent (present bindings.now) goal.now 0 }
{
    all_plain(goal.arguments, bindings.len()) && has_arity(goal)
}

/// What the goal's first argument is now.
pub fn first_of(rt: &impl Abort, bindings: &Bindings, goal: &GoalAt<'_>) -> Given {
    if is_lent(bindings, goal) && !goal.arguments.is_empty() {
        bindings.value_at(goal.arguments, 0, 0)
    } else {
        panic!(rt; "no such goal")
    }
}
