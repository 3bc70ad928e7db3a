//! Terms, domains and rows as these tests write them.
ghost use Rattle.pp_algebra.specs.Rows.{IsWide};
ghost use Rattle.pp_row.specs.Columns.{set_by};

use pp_domain::Domain;
use pp_term::{Cell, Row, Term};
use std::alloc::Global;
use std::process::Abort;

pub const A: Cell = Cell::Atom(1);

pub const B: Cell = Cell::Atom(2);

pub const X: Cell = Cell::Var(0);

pub const Y: Cell = Cell::Var(1);

pub const Z: Cell = Cell::Var(2);

/// A functor of one argument, and one of two.
pub const G: Cell = Cell::Compound(5, 1);

pub const F: Cell = Cell::Compound(5, 2);

/// The term that the cells write.
pub fn term(rt: &impl Abort, alloc: Global, cells: &[Cell]) -> Term {
    let cells = cells.to_vec(alloc).expect(rt, "memory");
    Term::from_cells(cells).expect(rt, "a term")
}

pub fn range(rt: &impl Abort, alloc: Global, low: i8, high: i8) -> Domain {
    let domain = Domain::range(alloc, i64::from(low), i64::from(high)).expect(rt, "memory");
    domain.expect(rt, "a domain")
}

/// No domain, or a range of two integers or more.
pub fn wide(rt: &impl Abort, alloc: Global, written: Option<(i8, i8)>) -> Option<Domain>
    ensures { IsWide (set_by result) }
{
    let (low, high) = written?;
    let domain = range(rt, alloc, low, high);
    if domain.size() < 2 {
        None
    } else {
        Some(domain)
    }
}

/// The row of these columns, with these domains for the variables from 0 on.
pub fn row(
    rt: &impl Abort,
    alloc: Global,
    written: &[&[Cell]],
    ranges: &[Option<(i8, i8)>],
) -> Row {
    let mut columns = Vec::new(alloc);
    for cells in written {
        columns.push(term(rt, alloc, cells)).expect(rt, "memory");
    }
    let mut domains = Vec::new(alloc);
    for range in ranges {
        domains.push(wide(rt, alloc, *range)).expect(rt, "memory");
    }
    Row::canon(alloc, columns, domains.as_slice()).expect(rt, "memory")
}
