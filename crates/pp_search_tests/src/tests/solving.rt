//! The calls of bindings, each with what it is to answer.
ghost use Rattle.std.specs.Prelude.{◌≡◌, ◌↔◌, All, IsTrue};
ghost use Rattle.pp_unify.specs.States.{present, IsOver, IsLonger};
ghost use Rattle.pp_algebra.specs.Numbered.{counted_from};
ghost use Rattle.pp_unify.specs.Tops.{IsThere};

use super::samples::{range, term, wide};
use pp_term::{Cell, Given, Row, Term};
use pp_unify::Bindings;
use std::alloc::Global;
use std::process::Abort;

/// Variables of these domains.
pub fn variables(rt: &impl Abort, alloc: Global, domains: &[Option<(i8, i8)>]) -> Bindings {
    let mut bindings = Bindings::new(alloc);
    for domain in domains {
        bindings.add(wide(rt, alloc, *domain)).expect(rt, "memory");
    }
    bindings
}

/// Whether the cell's variable is there, where it is counted from `first`.
fn is_there(cell: Cell, first: u32, count: usize) -> bool
    ensures { IsTrue result ↔ IsThere first count cell }
{
    match cell {
        Cell::Var(variable) => (first as usize) + (variable as usize) < count,
        _ => true,
    }
}

pub fn all_there(cells: &[Cell], first: u32, count: usize) -> bool
    ensures { IsTrue result ↔ All (IsThere first count) cells.now }
{
    cells.iter().all(|cell| is_there(*cell, first, count))
}

/// A term over the variables that are there, where its own are counted from `first`.
pub fn over(rt: &impl Abort, alloc: Global, bindings: &Bindings, cells: &[Cell], first: u32) -> Term
    ensures { IsOver (present bindings.now) (counted_from first result) }
{
    let term = term(rt, alloc, cells);
    if all_there(term.cells(), first, bindings.len()) {
        term
    } else {
        panic!(rt; "no such variable")
    }
}

/// A term over the variables that are there.
pub fn own(rt: &impl Abort, alloc: Global, bindings: &Bindings, cells: &[Cell]) -> Term
    ensures { IsOver (present bindings.now) result }
{
    over(rt, alloc, bindings, cells, 0)
}

/// Both terms are made equal, or can't be.
pub fn expect_unified(
    rt: &impl Abort,
    alloc: Global,
    bindings: &mut Bindings,
    left: &[Cell],
    right: &[Cell],
    wanted: bool,
)
    ensures { IsLonger bindings.old bindings.new }
{
    let left = own(rt, alloc, bindings, left);
    let right = own(rt, alloc, bindings, right);
    let same = bindings.unify(&left, &right).expect(rt, "memory");
    assert_eq!(rt; same, wanted);
}

/// The goal is made equal to a head whose variables are counted from `first`.
pub fn expect_headed(
    rt: &impl Abort,
    alloc: Global,
    bindings: &mut Bindings,
    goal: &[Cell],
    head: &[Cell],
    first: u32,
)
    ensures { IsLonger bindings.old bindings.new }
{
    let goal = own(rt, alloc, bindings, goal);
    let head = over(rt, alloc, bindings, head, first);
    let same = bindings
        .unify_head(&goal, &head, first)
        .expect(rt, "memory");
    assert!(rt; same);
}

/// Two terms are made equal, each with its variables counted from the number beside it.
pub fn expect_unified_from(
    rt: &impl Abort,
    alloc: Global,
    bindings: &mut Bindings,
    left: (&[Cell], u32),
    right: (&[Cell], u32),
)
    ensures { IsLonger bindings.old bindings.new }
{
    let one = over(rt, alloc, bindings, left.0, left.1);
    let other = over(rt, alloc, bindings, right.0, right.1);
    let same = bindings
        .unify_from(&one, left.1, &other, right.1)
        .expect(rt, "memory");
    assert!(rt; same);
}

/// The variable gets a value in the range, or there is none.
pub fn expect_narrowed(
    rt: &impl Abort,
    alloc: Global,
    bindings: &mut Bindings,
    variable: u32,
    written: (i8, i8),
    wanted: bool,
)
    ensures { IsLonger bindings.old bindings.new }
{
    let domain = range(rt, alloc, written.0, written.1);
    if (variable as usize) < bindings.len() {
        let some = bindings.narrow(variable, &domain).expect(rt, "memory");
        assert_eq!(rt; some, wanted);
    } else {
        panic!(rt; "no such variable")
    }
}

/// What the term is seen as.
pub fn expect_given(
    rt: &impl Abort,
    alloc: Global,
    bindings: &Bindings,
    cells: &[Cell],
    wanted: Given,
) {
    let term = own(rt, alloc, bindings, cells);
    assert_eq!(rt; bindings.value(&term), wanted);
}

/// How many integers the term's domain has, where it is finite.
pub fn expect_size(
    rt: &impl Abort,
    alloc: Global,
    bindings: &Bindings,
    cells: &[Cell],
    wanted: Option<u64>,
) {
    let term = own(rt, alloc, bindings, cells);
    let size = bindings.domain_of(&term).map(|domain| domain.size());
    assert_eq!(rt; size, wanted);
}

/// These terms, over the variables that are there.
fn listed(rt: &impl Abort, alloc: Global, bindings: &Bindings, columns: &[&[Cell]]) -> Vec<Term>
    ensures { All (IsOver (present bindings.now)) result.items }
{
    let mut terms = Vec::new(alloc);
    for cells in columns {
        terms
            .push(own(rt, alloc, bindings, cells))
            .expect(rt, "memory");
    }
    terms
}

/// The row of these terms as they are now.
fn resolved(rt: &impl Abort, alloc: Global, bindings: &Bindings, columns: &[&[Cell]]) -> Row {
    let terms = listed(rt, alloc, bindings, columns);
    bindings.resolve_row(terms.as_slice()).expect(rt, "memory")
}

/// The row covers that of these terms as they are now, or isn't known to.
pub fn expect_covered(
    rt: &impl Abort,
    alloc: Global,
    bindings: &mut Bindings,
    columns: &[&[Cell]],
    by: &Row,
    wanted: bool,
)
    ensures { bindings.new ≡ bindings.old }
{
    let terms = listed(rt, alloc, bindings, columns);
    let covered = bindings
        .is_covered(terms.as_slice(), by)
        .expect(rt, "memory");
    assert_eq!(rt; covered, wanted);
}

/// These terms are those now, with their variables numbered by first occurrence.
pub fn expect_shown(
    rt: &impl Abort,
    alloc: Global,
    bindings: &Bindings,
    columns: &[&[Cell]],
    wanted: &[&[Cell]],
) {
    let row = resolved(rt, alloc, bindings, columns);
    assert_eq!(rt; row.columns().len(), wanted.len());
    for (column, cells) in row.columns().iter().zip(wanted) {
        assert_eq!(rt; column.cells(), *cells);
    }
}
