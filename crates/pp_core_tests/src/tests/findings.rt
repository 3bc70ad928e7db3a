//! Findings in each mode, row by row and joined.
ghost use Rattle.std.specs.Prelude.{IsTrue};
ghost use Rattle.pp_algebra.specs.Covers.{RowCovers};
ghost use Rattle.pp_algebra.specs.Rows.{IsWide};
ghost use Rattle.pp_row.specs.Columns.{set_by};
ghost use Rattle.pp_term.specs.Meanings.{mode_of};
ghost use Rattle.pp_find.specs.Meanings.{FitsIn};

use pp_domain::Domain;
use pp_find::{Finding, Findings, Sole, Verdict};
use pp_order::covers;
use pp_row::{Cell, Row, Term};
use pp_space::Lattice;
use pp_term::Mode;
use std::alloc::Global;
use std::process::Abort;

const A: Cell = Cell::Atom(0);

const ONE: Cell = Cell::Int(1);

const TWO: Cell = Cell::Int(2);

const X: Cell = Cell::Var(0);

/// No domain, or a range of two integers or more.
fn wide(rt: &impl Abort, alloc: Global, range: Option<(i8, i8)>) -> Option<Domain>
    ensures { IsWide (set_by result) }
{
    let (low, high) = range?;
    let domain = Domain::range(alloc, i64::from(low), i64::from(high))
        .expect(rt, "memory")
        .expect(rt, "a domain");
    if domain.size() < 2 {
        None
    } else {
        Some(domain)
    }
}

/// The row of one column of one cell, whose variable has this domain.
fn row(rt: &impl Abort, alloc: Global, cell: Cell, range: Option<(i8, i8)>) -> Row {
    let cells = vec![in alloc; cell].expect(rt, "memory");
    let term = Term::from_cells(cells).expect(rt, "a term");
    let columns = vec![in alloc; term].expect(rt, "memory");
    let domains = vec![in alloc; wide(rt, alloc, range)].expect(rt, "memory");
    Row::canon(alloc, columns, domains.as_slice()).expect(rt, "memory")
}

/// The findings of a mode for a call of one variable of any domain.
fn findings(rt: &impl Abort, alloc: Global, mode: Mode) -> Findings {
    Findings::new(alloc, mode, row(rt, alloc, X, None))
}

/// Whether the call covers the row.
fn is_under(rt: &impl Abort, alloc: Global, call: &Row, row: &Row) -> bool
    ensures { IsTrue result → RowCovers call.now row.now }
{
    call.columns().len() == row.columns().len() && covers(alloc, call, row).expect(rt, "memory")
}

/// One answer more, or one loose end more, in place.
fn take(
    rt: &impl Abort,
    alloc: Global,
    findings: &Findings,
    finding: &mut Finding,
    row: Row,
    is_answer: bool,
)
    requires { ∥ FitsIn (mode_of findings.now.mode) findings.now.call finding.old ∥₁ }
    ensures { ∥ FitsIn (mode_of findings.now.mode) findings.now.call finding.new ∥₁ }
{
    if !is_under(rt, alloc, &findings.call, &row) {
        panic!(rt; "not under the call")
    }
    if is_answer {
        findings.take_answer(finding, row).expect(rt, "memory");
    } else {
        findings.take_loose(finding, &row).expect(rt, "memory");
    }
}

/// The finding with one row more, by the call that makes a new one.
fn more(
    rt: &impl Abort,
    alloc: Global,
    findings: &Findings,
    finding: &Finding,
    row: &Row,
    is_answer: bool,
) -> Finding
    requires { ∥ FitsIn (mode_of findings.now.mode) findings.now.call finding.now ∥₁ }
    ensures { ∥ FitsIn (mode_of findings.now.mode) findings.now.call result ∥₁ }
{
    if !is_under(rt, alloc, &findings.call, row) {
        panic!(rt; "not under the call")
    }
    if is_answer {
        findings.add_answer(finding, row).expect(rt, "memory")
    } else {
        findings.add_loose(finding, row).expect(rt, "memory")
    }
}

/// Whether the finding is settled, and what it comes to.
fn shown(rt: &impl Abort, findings: &Findings, finding: &Finding) -> (bool, Verdict)
    requires { ∥ FitsIn (mode_of findings.now.mode) findings.now.call finding.now ∥₁ }
{
    (
        findings.settled(finding),
        findings.outcome(finding).expect(rt, "memory"),
    )
}

fn expect(rt: &impl Abort, found: (bool, Verdict), is_settled: bool, verdict: &Verdict) {
    assert_eq!(rt; found.0, is_settled);
    assert!(rt; found.1.same(verdict));
}

#[test]
fn answers_narrow_until_a_loose_end_and_then_say_no_more_than_the_call(rt: HostRuntime) {
    let alloc = rt.alloc();
    let findings = findings(&rt, alloc, Mode::Most);
    let mut finding = findings.empty();
    take(
        &rt,
        alloc,
        &findings,
        &mut finding,
        row(&rt, alloc, ONE, None),
        true,
    );
    take(
        &rt,
        alloc,
        &findings,
        &mut finding,
        row(&rt, alloc, TWO, None),
        true,
    );
    let both = Verdict::Narrow(row(&rt, alloc, X, Some((1, 2))));
    expect(&rt, shown(&rt, &findings, &finding), false, &both);
    take(
        &rt,
        alloc,
        &findings,
        &mut finding,
        row(&rt, alloc, X, None),
        false,
    );
    expect(
        &rt,
        shown(&rt, &findings, &finding),
        false,
        &Verdict::Unfinished,
    );
    take(
        &rt,
        alloc,
        &findings,
        &mut finding,
        row(&rt, alloc, A, None),
        true,
    );
    expect(&rt, shown(&rt, &findings, &finding), true, &Verdict::Same);
}

#[test]
fn equal_answers_are_one_and_a_second_one_settles(rt: HostRuntime) {
    let alloc = rt.alloc();
    let findings = findings(&rt, alloc, Mode::Unique);
    let mut finding = findings.empty();
    take(
        &rt,
        alloc,
        &findings,
        &mut finding,
        row(&rt, alloc, ONE, None),
        true,
    );
    take(
        &rt,
        alloc,
        &findings,
        &mut finding,
        row(&rt, alloc, ONE, None),
        true,
    );
    assert!(rt;
        matches!(
            &finding,
            Finding::Unique {
                sole: Sole::One(_),
                ..
            }
        )
    );
    take(
        &rt,
        alloc,
        &findings,
        &mut finding,
        row(&rt, alloc, TWO, None),
        true,
    );
    assert!(rt;
        matches!(
            &finding,
            Finding::Unique {
                sole: Sole::Two,
                ..
            }
        )
    );
    expect(
        &rt,
        shown(&rt, &findings, &finding),
        true,
        &Verdict::Nothing,
    );
}

#[test]
fn nothing_found_fails(rt: HostRuntime) {
    let alloc = rt.alloc();
    for mode in [Mode::Most, Mode::Unique, Mode::Consistent] {
        let findings = findings(&rt, alloc, mode);
        let mut finding = findings.empty();
        expect(&rt, shown(&rt, &findings, &finding), false, &Verdict::Fail);
        take(
            &rt,
            alloc,
            &findings,
            &mut finding,
            row(&rt, alloc, ONE, None),
            false,
        );
        expect(
            &rt,
            shown(&rt, &findings, &finding),
            false,
            &Verdict::Unfinished,
        );
    }
}

#[test]
fn findings_are_joined(rt: HostRuntime) {
    let alloc = rt.alloc();
    let findings = findings(&rt, alloc, Mode::Most);
    let none = findings.empty();
    let one = more(
        &rt,
        alloc,
        &findings,
        &none,
        &row(&rt, alloc, ONE, None),
        true,
    );
    let two = more(
        &rt,
        alloc,
        &findings,
        &none,
        &row(&rt, alloc, TWO, None),
        true,
    );
    let both = findings.join(&one, &two).expect(&rt, "memory");
    let after = more(
        &rt,
        alloc,
        &findings,
        &one,
        &row(&rt, alloc, TWO, None),
        true,
    );
    let loose = more(
        &rt,
        alloc,
        &findings,
        &one,
        &row(&rt, alloc, TWO, None),
        false,
    );
    assert!(rt; both.same(&after) && !both.same(&loose));
    assert!(rt; findings.below(&one, &both).expect(&rt, "memory"));
    assert!(rt; !findings.below(&both, &one).expect(&rt, "memory"));
    assert!(rt; findings.copy_of(&both).expect(&rt, "memory").same(&after));
}
