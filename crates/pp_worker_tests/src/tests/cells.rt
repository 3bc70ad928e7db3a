//! A cell with two passes, entry by entry.
ghost use Rattle.std.specs.Prelude.{◌≡◌, ◌≤◌, ◌<◌, ◌+◌, ◌∷◌, [], All, IfSome, max, vec_len};
ghost use Rattle.pp_core.specs.Worths.{IsFit};
ghost use Rattle.pp_cell.specs.Passes.{IsPassOf, pass_space};
ghost use Rattle.pp_worker_tests.specs.Cells.{HasPasses};
ghost use Rattle.pp_worker_tests.specs.Heights.{between, greatest};

use super::heights::{Heights, Span, height};
use super::searching::halves;
use pp_cell::{Accepted, Act, Answered, Cell, Entry, Pass, Report, ReportOf};
use pp_core::Tasks;
use std::alloc::Global;
use std::process::Abort;
use std::sync::Wait;

/// A cell for the search of a span, and so many passes.
pub fn cell_of<'a>(
    alloc: Global,
    space: &'a Heights,
    root: Span,
    count: u32,
) -> Option<(Cell<'a, Heights>, Vec<Pass<'a, Heights>>)>
    requires { (1 ≤ count) × (count ≤ 65) }
    ensures count { IfSome result (λ t. HasPasses t.0 count × (vec_len t.1 ≡ count)) }
    ensures passes { IfSome result (λ t. All (λ p. IsPassOf t.0 p × (space.now ≡ pass_space p)) t.1.items) }
{
    let Ok((cell, passes)) = Cell::new(alloc, space, root, count) else {
        return None;
    };
    Some((cell, passes))
}

/// The journal, for whoever has all passes back in the order of their numbers.
pub fn journal_of<'a>(
    cell: Cell<'a, Heights>,
    passes: Vec<Pass<'a, Heights>>,
    count: u32,
) -> Option<Vec<Entry<Heights>>>
    requires some { 1 ≤ count }
    requires count { HasPasses cell count }
    requires passes { All (λ p. IsPassOf cell p) passes.items }
{
    if passes.len() != count as usize {
        return None;
    }
    for i in 0..passes.len() {
        if passes[i].number() as usize != i {
            return None;
        }
    }
    Some(cell.journal(passes))
}

/// The greatest of so many heights.
fn greatest_of(low: u32, count: u32) -> u32
    requires { low + count < 4294967296 }
    ensures { result ≡ greatest low count }
{
    let mut top = 0;
    for done in 0..count {
        top = top.max(height(low + done));
    }
    top
}

/// A report of the span whose halves are left, or whose greatest height was found.
fn report_of(alloc: Global, span: Span, is_found: bool) -> Option<Report<Heights>>
    ensures fit { IfSome result (λ r. IsFit (λ t. between t.low t.high) max (λ _. Unit {0}) r) }
    ensures under { IfSome result (λ r. r.under ≡ 0) }
{
    let (found, rest) = if is_found {
        let count = span.high.saturating_sub(span.low);
        (greatest_of(span.low, count), Vec::new(alloc))
    } else {
        (0, halves(alloc, span.low, span.high).ok()?)
    };
    Some(ReportOf {
        task: span,
        rest: Tasks::from_vec(rest),
        found,
        under: 0,
    })
}

/// What is answered to a report of the span, and the value then.
fn told<'a, R: Abort + Wait>(
    rt: &R,
    alloc: Global,
    cell: &Cell<'a, Heights>,
    pass: &mut Pass<'a, Heights>,
    span: Span,
    is_found: bool,
) -> (Accepted, u32)
    requires { IsPassOf cell.now pass.old }
    ensures { IsPassOf cell.now pass.new }
{
    let report = report_of(alloc, span, is_found).expect(rt, "memory");
    let Answered { accepted, seen } = cell.report(rt, pass, report).expect(rt, "memory");
    (accepted, seen)
}

/// The outcome that a look shows.
fn shown<'a, R: Abort + Wait>(
    rt: &R,
    cell: &Cell<'a, Heights>,
    pass: &mut Pass<'a, Heights>,
) -> Option<u32>
    requires { IsPassOf cell.now pass.old }
    ensures { IsPassOf cell.now pass.new }
{
    match cell.look(rt, pass).expect(rt, "memory") {
        Some(settled) => Some(settled.outcome().expect(rt, "memory")),
        None => None,
    }
}

/// What an entry is of.
#[derive(Clone, Copy, Debug, PartialEq, Eq)]
pub enum Kind {
    Reported,
    Stale,
    Looked,
}

/// Whose entry it is, and of what kind.
fn said(entry: &Entry<Heights>) -> (u32, Kind) {
    let kind = match &entry.act {
        Act::Reported(_) => Kind::Reported,
        Act::Stale(_) => Kind::Stale,
        Act::Looked => Kind::Looked,
    };
    (entry.seat, kind)
}

const ROOT: Span = Span { low: 0, high: 10 };

const LEFT: Span = Span { low: 0, high: 5 };

const RIGHT: Span = Span { low: 5, high: 10 };

/// What two passes are told of the search of ten numbers, and what is shown to them.
fn talk<'a, R: Abort + Wait>(
    rt: &R,
    alloc: Global,
    cell: &Cell<'a, Heights>,
    one: &mut Pass<'a, Heights>,
    two: &mut Pass<'a, Heights>,
) -> ([(Accepted, u32); 4], [Option<u32>; 2])
    requires one { IsPassOf cell.now one.old }
    requires two { IsPassOf cell.now two.old }
    ensures one { IsPassOf cell.now one.new }
    ensures two { IsPassOf cell.now two.new }
{
    let first = told(rt, alloc, cell, one, ROOT, false);
    let early = shown(rt, cell, two);
    let left = told(rt, alloc, cell, two, LEFT, true);
    let again = told(rt, alloc, cell, one, LEFT, true);
    let right = told(rt, alloc, cell, one, RIGHT, true);
    let late = shown(rt, cell, one);
    ([first, left, again, right], [early, late])
}

/// What two passes are told, what is shown to them, and the journal.
fn two_passes<R: Abort + Wait>(
    rt: &R,
    alloc: Global,
) -> ([(Accepted, u32); 4], [Option<u32>; 2], Vec<Entry<Heights>>) {
    let space = Heights { alloc };
    let (cell, mut passes) = cell_of(alloc, &space, ROOT, 2).expect(rt, "memory");
    let mut two = passes.pop().expect(rt, "a pass");
    let mut one = passes.pop().expect(rt, "a pass");
    let (told, shown) = talk(rt, alloc, &cell, &mut one, &mut two);
    let both = vec![in alloc; one, two].expect(rt, "memory");
    let journal = journal_of(cell, both, 2).expect(rt, "all passes");
    (told, shown, journal)
}

/// Whose entry stands at the place, and of what kind it is.
fn said_at(journal: &[Entry<Heights>], place: usize) -> Option<(u32, Kind)> {
    journal.get(place).map(said)
}

#[test]
fn a_cell_answers_reports_and_looks_and_keeps_them_all(rt: HostRuntime) {
    let (told, shown, journal) = two_passes(&rt, rt.alloc());
    let taken = Accepted::Taken;
    let answers = [
        (taken, 0),
        (taken, 31_676),
        (Accepted::Stale, 31_676),
        (Accepted::Settled, 71_271),
    ];
    assert_eq!(rt;
        (told, shown, journal.len()),
        (answers, [None, Some(71_271)], 6)
    );
    for (i, want) in [
        (0, (0, Kind::Reported)),
        (1, (1, Kind::Looked)),
        (2, (1, Kind::Reported)),
        (3, (0, Kind::Stale)),
        (4, (0, Kind::Reported)),
        (5, (0, Kind::Looked)),
    ] {
        assert_eq!(rt; said_at(&journal, i), Some(want), "{i}");
    }
}
