//! Work to be timed: cover tests of four columns and the join of two rows of many cells (`bench/rows.sh`); two long
//! lists that unify, two nested terms that do, and binds and undos of one variable (`bench/bindings.sh`); the reading
//! of a text (`bench/read.sh`).
#![tactic(auto)]

ghost use Rattle.std.specs.Prelude.{◌↔◌, All, IsTrue};
ghost use Rattle.pp_algebra.specs.Terms.{count};
ghost use Rattle.pp_unify.specs.States.{IsLonger};
ghost use Rattle.pp_unify.specs.Tops.{IsThere};

use pp_lgg::join;
use pp_order::covers;
use pp_read::read;
use pp_term::{Cell, Row, Term};
use pp_unify::Bindings;
use std::alloc::{AllocError, Global};
use std::io::Read;
use std::{env, io};

/// How many elements the lists have that are joined; each is two cells.
const ELEMENTS: u32 = 50_000;

/// How many cover tests are made.
const TESTS: u32 = 1_000_000;

/// How many elements the lists have that unify, and how deep the nested terms are.
const LONG: u32 = 100_000;

/// How often a variable is bound and gone back to.
const BINDS: u32 = 1_000_000;

/// How many bytes a text has at most.
const TEXT_LIMIT: usize = 4_194_304;

fn main(rt: HostRuntime) -> io::Result<()> {
    let words: Vec<String> = env::args(&rt)?.skip(1).collect(rt.alloc())?;
    let tests = if asks(&words, "covers") { TESTS } else { 1 };
    let elements = if asks(&words, "join") { ELEMENTS } else { 1 };
    let is_covered = covers_always(rt.alloc(), tests)?;
    let cells = joined_cells(rt.alloc(), elements)?;
    println!(rt; "{tests} tests: {is_covered}")?;
    println!(rt; "{elements} elements: {cells} cells")?;
    let long = if asks(&words, "lists") { LONG } else { 1 };
    let deep = if asks(&words, "nests") { LONG } else { 1 };
    let times = if asks(&words, "binds") { BINDS } else { 1 };
    let is_one = lists_unify(rt.alloc(), long)?;
    let is_nested = nests_unify(rt.alloc(), deep)?;
    let is_bound = binds_always(rt.alloc(), times)?;
    println!(rt; "{long} elements: {is_one}")?;
    println!(rt; "{deep} nested: {is_nested}")?;
    println!(rt; "{times} binds: {is_bound}")?;
    let mut text = Vec::new(rt.alloc());
    if asks(&words, "read") {
        rt.stdin().read_to_end(&mut text)?;
    } else {
        text.extend_from_slice(b"p(1). ?- p(X) infers most.")?;
    }
    show(&rt, &text)
}

/// Prints how many clauses a text has, or its fault.
fn show(rt: &HostRuntime, text: &[u8]) -> io::Result<()> {
    let length = text.len();
    if length > TEXT_LIMIT {
        return println!(rt; "{length} bytes are too many");
    }
    match read(rt.alloc(), text) {
        Ok(program) => {
            let clauses = program.clauses.as_slice().len();
            println!(rt; "{length} bytes: {clauses} clauses")
        }
        Err(fault) => println!(rt; "{length} bytes: {fault}"),
    }
}

/// Whether the first word is this one.
fn asks(words: &[String], word: &str) -> bool {
    match words {
        [first, ..] => first.as_str() == word,
        [] => false,
    }
}

/// A row of these columns.
fn row(alloc: Global, columns: Vec<Vec<Cell>>) -> Result<Row, AllocError> {
    let mut terms = Vec::new(alloc);
    for cells in columns {
        terms.push(Term::from_cells(cells).ok_or(AllocError)?)?;
    }
    Row::canon(alloc, terms, &[])
}

/// Whether `(_0, f(_1), _0, _2)` covers `(a, f(b), a, 7)`, as often as is told.
fn covers_always(alloc: Global, tests: u32) -> Result<bool, AllocError> {
    let general = row(
        alloc,
        vec![in alloc;
            vec![in alloc; Cell::Var(0)]?,
            vec![in alloc; Cell::Compound(5, 1), Cell::Var(1)]?,
            vec![in alloc; Cell::Var(0)]?,
            vec![in alloc; Cell::Var(2)]?,
        ]?,
    )?;
    let special = row(
        alloc,
        vec![in alloc;
            vec![in alloc; Cell::Atom(1)]?,
            vec![in alloc; Cell::Compound(5, 1), Cell::Atom(2)]?,
            vec![in alloc; Cell::Atom(1)]?,
            vec![in alloc; Cell::Int(7)]?,
        ]?,
    )?;
    let mut always = true;
    for _ in 0..tests {
        always = always && is_covered(alloc, &general, &special)?;
    }
    Ok(always)
}

/// Whether one row covers the other; rows of another width are covered by none.
fn is_covered(alloc: Global, general: &Row, special: &Row) -> Result<bool, AllocError> {
    if general.columns().len() == special.columns().len() {
        covers(alloc, general, special)
    } else {
        Ok(false)
    }
}

/// A list of so many integers from `first` on, as nested pairs.
fn list(alloc: Global, first: u32, elements: u32) -> Result<Vec<Cell>, AllocError> {
    let mut cells = Vec::new(alloc);
    for element in 0..elements {
        cells.push(Cell::Compound(3, 2))?;
        cells.push(Cell::Int(i64::from(element % 1_000) + i64::from(first % 7)))?;
    }
    cells.push(Cell::Atom(4))?;
    Ok(cells)
}

/// How many cells the join of two lists has.
fn joined_cells(alloc: Global, elements: u32) -> Result<usize, AllocError> {
    let left = row(alloc, vec![in alloc; list(alloc, 0, elements)?]?)?;
    let right = row(alloc, vec![in alloc; list(alloc, 1, elements)?]?)?;
    let common = joined(alloc, &left, &right)?;
    match common.columns() {
        [column, ..] => Ok(column.cells().len()),
        [] => Ok(0),
    }
}

/// The join of two rows; the first of them where they have another width.
fn joined(alloc: Global, left: &Row, right: &Row) -> Result<Row, AllocError> {
    if left.columns().len() == right.columns().len() {
        join(alloc, left, right)
    } else {
        left.copy()
    }
}

/// Whether the cell's variable is there.
fn is_there(cell: Cell, count: usize) -> bool
    ensures { IsTrue result ↔ IsThere 0 count cell }
{
    match cell {
        Cell::Var(variable) => (variable as usize) < count,
        _ => true,
    }
}

fn all_there(cells: &[Cell], count: usize) -> bool
    ensures { IsTrue result ↔ All (IsThere 0 count) cells.now }
{
    cells.iter().all(|cell| is_there(*cell, count))
}

/// Whether two terms are made equal; those of variables that aren't there are not.
fn unified(bindings: &mut Bindings, left: &Term, right: &Term) -> Result<bool, AllocError>
    ensures { IsLonger bindings.old bindings.new }
{
    let count = bindings.len();
    if all_there(left.cells(), count) && all_there(right.cells(), count) {
        bindings.unify(left, right)
    } else {
        Ok(false)
    }
}

/// Whether a list of integers and a list of as many variables unify.
fn lists_unify(alloc: Global, elements: u32) -> Result<bool, AllocError> {
    let mut bindings = Bindings::new(alloc);
    let mut cells = Vec::new(alloc);
    for _ in 0..elements {
        cells.push(Cell::Compound(3, 2))?;
        cells.push(Cell::Var(bindings.add(None)?))?;
    }
    cells.push(Cell::Atom(4))?;
    let open = Term::from_cells(cells).ok_or(AllocError)?;
    let closed = Term::from_cells(list(alloc, 0, elements)?).ok_or(AllocError)?;
    unified(&mut bindings, &open, &closed)
}

/// Terms of two arguments, each the first argument of the one around it, around this cell.
fn nest(alloc: Global, depth: u32, inner: Cell) -> Result<Vec<Cell>, AllocError> {
    let mut cells = Vec::new(alloc);
    for _ in 0..depth {
        cells.push(Cell::Compound(3, 2))?;
    }
    cells.push(inner)?;
    for _ in 0..depth {
        cells.push(Cell::Atom(4))?;
    }
    Ok(cells)
}

/// Whether a variable and two nested terms unify.
fn nests_unify(alloc: Global, depth: u32) -> Result<bool, AllocError> {
    let mut bindings = Bindings::new(alloc);
    let inner = bindings.add(None)?;
    let outer = Term::variable(alloc, bindings.add(None)?)?;
    let open = Term::from_cells(nest(alloc, depth, Cell::Var(inner))?).ok_or(AllocError)?;
    let closed = Term::from_cells(nest(alloc, depth, Cell::Atom(5))?).ok_or(AllocError)?;
    Ok(unified(&mut bindings, &outer, &open)? && unified(&mut bindings, &outer, &closed)?)
}

/// Whether a variable is bound to an atom, as often as is told.
fn binds_always(alloc: Global, times: u32) -> Result<bool, AllocError> {
    let mut bindings = Bindings::new(alloc);
    let variable = Term::variable(alloc, bindings.add(None)?)?;
    let atom = Term::atom(alloc, 1)?;
    let mark = bindings.mark();
    let mut always = true;
    for _ in 0..times {
        always = unified(&mut bindings, &variable, &atom)? && always;
        bindings.undo(mark);
    }
    Ok(always)
}
