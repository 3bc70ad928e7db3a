//! Texts of terms, domains, rows and stores.
ghost use Rattle.std.specs.Prelude.{◌≤◌};
ghost use Rattle.std.specs.FinSet as set;
ghost use Rattle.pp_domain.specs.Sets.{set_of};

use pp_domain::Domain;
use pp_print::{domain_text, row_text, store_text, term_text};
use pp_term::{Cell, Items, Names, Numbers, Query, Row, Term};
use std::alloc::Global;
use std::process::Abort;

/// The names, one a line.
const NAMES: &[u8] = b"f\na\nhello world\ninfers\nit's\nX\nY\nZ";

fn some_names(rt: &impl Abort, alloc: Global) -> Names {
    let mut names = Names::new(alloc);
    for name in NAMES.split(|byte| *byte == b'\n') {
        names.intern(name).expect(rt, "memory");
    }
    names
}

fn term(rt: &impl Abort, alloc: Global, cells: &[Cell]) -> Term {
    let cells = cells.to_vec(alloc).expect(rt, "memory");
    Term::from_cells(cells).expect(rt, "a term")
}

/// The text of the term that the cells write.
fn written(rt: &impl Abort, alloc: Global, cells: &[Cell]) -> Vec<u8> {
    let names = some_names(rt, alloc);
    term_text(alloc, &names, &term(rt, alloc, cells)).expect(rt, "memory")
}

#[test]
fn a_term_is_written(rt: HostRuntime) {
    let pair = Cell::Compound(0, 2);
    let rows: [(&[Cell], &str); 7] = [
        (&[pair, Cell::Int(1), Cell::Atom(1)], "f(1,a)"),
        (
            &[
                pair,
                Cell::Compound(0, 1),
                Cell::Var(3),
                Cell::Compound(2, 1),
                Cell::Int(-5),
            ],
            "f(f(_3),'hello world'(-5))",
        ),
        (&[Cell::Atom(3)], "'infers'"),
        (&[Cell::Atom(4)], "'it''s'"),
        (&[Cell::Atom(99)], "''"),
        (&[Cell::Int(-5)], "-5"),
        (&[Cell::Int(0)], "0"),
    ];
    for (cells, text) in rows {
        assert_eq!(rt; written(&rt, rt.alloc(), cells).as_slice(), text.as_bytes());
    }
}

#[test]
fn a_deep_term_is_written(rt: HostRuntime) {
    let mut cells = vec![in rt.alloc(); Cell::Compound(0, 1); 200_000].expect(&rt, "memory");
    cells.push(Cell::Atom(1)).expect(&rt, "memory");
    let text = written(&rt, rt.alloc(), &cells);
    assert_eq!(rt; text.len(), 600_001);
    assert!(rt; text.starts_with(b"f(f(") && text.ends_with(b"))"));
}

fn range(rt: &impl Abort, alloc: Global, low: i8, high: i8) -> Domain {
    let domain = Domain::range(alloc, i64::from(low), i64::from(high)).expect(rt, "memory");
    domain.expect(rt, "a domain")
}

/// The text of the domain of both ranges.
fn written_domain(rt: &impl Abort, alloc: Global, one: (i8, i8), other: (i8, i8)) -> Vec<u8> {
    let one = range(rt, alloc, one.0, one.1);
    let both = one
        .union(&range(rt, alloc, other.0, other.1))
        .expect(rt, "memory");
    domain_text(alloc, &both).expect(rt, "memory")
}

#[test]
fn a_domain_is_written_as_its_intervals(rt: HostRuntime) {
    let rows: [((i8, i8), (i8, i8), &str); 4] = [
        ((0, 1), (0, 0), "[0..1]"),
        ((2, 2), (4, 4), "[2, 4]"),
        ((5, 5), (-3, -1), "[-3..-1, 5]"),
        ((7, 7), (7, 7), "[7]"),
    ];
    for (one, other, text) in rows {
        let found = written_domain(&rt, rt.alloc(), one, other);
        assert_eq!(rt; found.as_slice(), text.as_bytes());
    }
}

fn wide(rt: &impl Abort, alloc: Global, low: i8, high: i8) -> Domain
    ensures { 2 ≤ set.len (set_of result) }
{
    let domain = range(rt, alloc, low, high);
    if domain.size() < 2 {
        panic!(rt; "a narrow domain")
    }
    domain
}

/// A row of one column for each cell, where `_0` is 1 or 2 and `_1` is 2 or 3.
fn row(rt: &impl Abort, alloc: Global, cells: &[Cell]) -> Row {
    let mut columns = Vec::new(alloc);
    for cell in cells {
        columns.push(term(rt, alloc, &[*cell])).expect(rt, "memory");
    }
    let domains = [Some(wide(rt, alloc, 1, 2)), Some(wide(rt, alloc, 2, 3))];
    Row::canon(alloc, columns, &domains).expect(rt, "memory")
}

fn expect_row(rt: &impl Abort, alloc: Global, cells: &[Cell], wanted: &[u8]) {
    let names = some_names(rt, alloc);
    let text = row_text(alloc, &names, &row(rt, alloc, cells)).expect(rt, "memory");
    assert_eq!(rt; text.as_slice(), wanted);
}

#[test]
fn a_row_is_one_line(rt: HostRuntime) {
    let alloc = rt.alloc();
    let ranged = b"_0, _1 | _0 :: [1..2], _1 :: [2..3]".as_slice();
    expect_row(&rt, alloc, &[Cell::Var(0), Cell::Var(1)], ranged);
    expect_row(&rt, alloc, &[Cell::Int(2), Cell::Int(3)], b"2, 3");
    expect_row(&rt, alloc, &[], b"");
}

/// The query that names three variables of four.
fn query(rt: &impl Abort, alloc: Global) -> Query {
    Query {
        vars: 4,
        named: Numbers::from_vec([5, 6, 7].to_vec(alloc).expect(rt, "memory")),
        items: Items::from_vec(Vec::new(alloc)),
    }
}

/// The store of that query whose last column is of no named variable, so its variable has no line.
fn expect_store(rt: &impl Abort, alloc: Global, unfinished: &[u32], stopped: bool, wanted: &[u8]) {
    let names = some_names(rt, alloc);
    let store = row(
        rt,
        alloc,
        &[Cell::Var(0), Cell::Int(2), Cell::Int(3), Cell::Var(1)],
    );
    let query = query(rt, alloc);
    let text = store_text(alloc, &names, &query, &store, unfinished, stopped);
    assert_eq!(rt; text.expect(rt, "memory").as_slice(), wanted);
}

#[test]
fn a_store_is_written_line_by_line(rt: HostRuntime) {
    let alloc = rt.alloc();
    let stopped = b"X = _0\nY = 2\nZ = 3\n_0 :: [1..2]\nstopped\n".as_slice();
    expect_store(&rt, alloc, &[], true, stopped);
    let yes = b"X = _0\nY = 2\nZ = 3\n_0 :: [1..2]\nunfinished 1\nunfinished 12\nyes\n".as_slice();
    expect_store(&rt, alloc, &[1, 12], false, yes);
}
