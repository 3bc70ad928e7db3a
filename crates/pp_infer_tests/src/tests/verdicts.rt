//! The verdict of one annotated goal, found by one thread or by many workers.
ghost use Rattle.std.specs.Prelude.{◌≡◌, ◌<◌, ◌≤◌, All, IfSome, length};
ghost use Rattle.pp_algebra.specs.Terms.{count};
ghost use Rattle.pp_term.specs.WellFormed.{IsClause};

use pp_clause::Clauses;
use pp_find::Verdict;
use pp_infer::{infer_alone, infer_with};
use pp_print::row_text;
use pp_read::{ClauseList, Program, read};
use pp_term::{Item, Mode, Names, Pred, Row, Shape, Terms};
use pp_walk::Steps;
use pp_worker::{Gate, OpenGate};
use std::alloc::Global;
use std::marker::Brand;
use std::process::Abort;
use std::sync::Wait;
use std::sync::ledger::{Blank, Ledger};
use std::thread::Threads;

fn table(rt: &impl Abort, alloc: Global, list: ClauseList) -> Clauses
    requires { All IsClause list }
{
    let mut clauses = Clauses::new(alloc);
    for clause in list.into_vec() {
        clauses.add(clause).expect(rt, "memory");
    }
    clauses
}

/// The arguments alone, each variable of domain `any`.
fn face(rt: &impl Abort, alloc: Global, arguments: &Terms) -> Row {
    let mut columns = Vec::new(alloc);
    for argument in arguments.as_slice() {
        columns
            .push(argument.copy().expect(rt, "memory"))
            .expect(rt, "memory");
    }
    Row::canon(alloc, columns, &[]).expect(rt, "memory")
}

/// The predicate of this name with as many arguments as the face has columns.
fn pred(rt: &impl Abort, name: u32, face: &Row) -> Pred
    ensures { count face.now.columns ≡ result.arity }
{
    let arity = u32::try_from(face.columns().len()).expect(rt, "a narrow row");
    Pred { name, arity }
}

/// The verdict, as the row that it narrows to or as a word.
fn written(rt: &impl Abort, alloc: Global, names: &Names, verdict: &Verdict) -> Vec<u8> {
    let word: &[u8] = match verdict {
        Verdict::Narrow(row) => return row_text(alloc, names, row).expect(rt, "memory"),
        Verdict::Fail => b"fail",
        Verdict::Same => b"same",
        Verdict::Nothing => b"nothing",
        Verdict::Unfinished => b"unfinished",
    };
    word.to_vec(alloc).expect(rt, "memory")
}

/// The verdict of the only goal of a text in this mode, under its arguments, found by one thread or by so many workers,
/// who pass the gate. Workers search less deep, since many of them may have to share one processor.
fn inferred<L: Ledger, G: Gate, R: Abort + Threads + Wait + Sync>(
    rt: &R,
    alloc: Global,
    blank: Blank,
    program: Program,
    mode: Mode,
    workers: Option<u32>,
    gate: &G,
) -> Vec<u8>
    requires clauses { All IsClause program.clauses }
    requires name { blank.name ≡ L.name }
    requires parts { blank.parts ≡ L.parts }
    requires some { 0 < blank.parts }
    requires workers { IfSome workers (λ n. (1 ≤ n) × (n ≤ 64)) }
{
    let Program {
        names,
        clauses,
        query,
    } = program;
    let clauses = table(rt, alloc, clauses);
    let [Item::Infer(Shape::User(called), arguments, _)] = query.items.as_slice() else {
        panic!(rt; "not one goal of a predicate")
    };
    let face = face(rt, alloc, arguments);
    let shape = Shape::User(pred(rt, called.name, &face));
    let mut steps: Steps<L> = Steps::new(blank);
    let verdict = match workers {
        None => infer_alone(alloc, &clauses, shape, mode, &face, 1000, &mut steps),
        Some(workers) => infer_with(rt, alloc, &clauses, shape, mode, &face, 60, workers, gate),
    };
    written(rt, alloc, &names, &verdict.expect(rt, "memory"))
}

/// The verdict of the only goal of a text in this mode.
pub fn verdict_of<G: Gate, R: Abort + Threads + Wait + Sync>(
    rt: &R,
    alloc: Global,
    text: &[u8],
    mode: Mode,
    workers: Option<u32>,
    gate: &G,
) -> Vec<u8>
    requires { IfSome workers (λ n. (1 ≤ n) × (n ≤ 64)) }
{
    assert!(rt; text.len() <= 1000);
    let program = read(alloc, text).expect(rt, "a text without fault");
    inferred::<Brand, G, R>(rt, alloc, Blank::new(1), program, mode, workers, gate)
}

/// The goal of each text has this verdict.
fn expect_verdicts<R: Abort + Threads + Wait + Sync>(
    rt: &R,
    alloc: Global,
    workers: Option<u32>,
    rows: &[(&str, Mode, &str)],
)
    requires { IfSome workers (λ n. (1 ≤ n) × (n ≤ 64)) }
{
    for (text, mode, verdict) in rows {
        let found = verdict_of(rt, alloc, text.as_bytes(), *mode, workers, &OpenGate);
        assert_eq!(rt; found.as_slice(), verdict.as_bytes());
    }
}

fn small_goals<R: Abort + Threads + Wait + Sync>(rt: &R, alloc: Global, workers: Option<u32>)
    requires { IfSome workers (λ n. (1 ≤ n) × (n ≤ 64)) }
{
    expect_verdicts(
        rt,
        alloc,
        workers,
        &[
            (
                "eq(a,a). eq(b,b). ?- eq(X,Y) infers most.",
                Mode::Most,
                "_0, _0",
            ),
            (
                "p(1). p(2). ?- p(X) infers unique.",
                Mode::Unique,
                "nothing",
            ),
            (
                "nat(0). nat(s(X)) :- nat(X). ?- nat(X) infers most.",
                Mode::Most,
                "same",
            ),
            (
                "p(X) :- p(X). ?- p(X) infers most.",
                Mode::Most,
                "unfinished",
            ),
            (
                "p(1). p(2). ?- p(3) infers consistent.",
                Mode::Consistent,
                "fail",
            ),
        ],
    );
}

fn goals_with_loose_ends<R: Abort + Threads + Wait + Sync>(
    rt: &R,
    alloc: Global,
    workers: Option<u32>,
)
    requires { IfSome workers (λ n. (1 ≤ n) × (n ≤ 64)) }
{
    expect_verdicts(
        rt,
        alloc,
        workers,
        &[
            (
                "nat(0). nat(s(X)) :- nat(X). p(a,X) :- nat(X). ?- p(Y,Z) infers most.",
                Mode::Most,
                "a, _0",
            ),
            (
                "p(a). p(X) :- q, X = b. q :- q. ?- p(X) infers most.",
                Mode::Most,
                "unfinished",
            ),
            (
                "p(1). p(X) :- p(X). ?- p(X) infers unique.",
                Mode::Unique,
                "unfinished",
            ),
            (
                "p(1). p(X) :- p(X). ?- p(X) infers consistent.",
                Mode::Consistent,
                "nothing",
            ),
            ("p(1). p(1). ?- p(X) infers unique.", Mode::Unique, "1"),
        ],
    );
}

/// The whole trees have more than 2^900 leaves, so what doesn't stop at its first or second answer doesn't end.
fn endless_goals<R: Abort + Threads + Wait + Sync>(rt: &R, alloc: Global, workers: Option<u32>)
    requires { IfSome workers (λ n. (1 ≤ n) × (n ≤ 64)) }
{
    expect_verdicts(
        rt,
        alloc,
        workers,
        &[
            (
                "t(X). t(X) :- t(X). t(X) :- t(X). ?- t(X) infers most.",
                Mode::Most,
                "same",
            ),
            (
                "t(X). t(X) :- t(X). t(X) :- t(X). ?- t(X) infers consistent.",
                Mode::Consistent,
                "nothing",
            ),
            (
                "u(1). u(2). u(X) :- u(X). u(X) :- u(X). ?- u(X) infers unique.",
                Mode::Unique,
                "nothing",
            ),
        ],
    );
}

#[test]
fn a_goal_has_its_verdict(rt: HostRuntime) {
    small_goals(&rt, rt.alloc(), None);
}

#[test]
fn loose_ends_count_unless_the_answers_cover_them(rt: HostRuntime) {
    goals_with_loose_ends(&rt, rt.alloc(), None);
}

#[test]
fn a_walk_stops_when_it_is_settled(rt: HostRuntime) {
    endless_goals(&rt, rt.alloc(), None);
}

/// The goals of all tests, by so many workers.
fn all_goals<R: Abort + Threads + Wait + Sync>(rt: &R, alloc: Global, workers: u32)
    requires { (1 ≤ workers) × (workers ≤ 64) }
{
    small_goals(rt, alloc, Some(workers));
    goals_with_loose_ends(rt, alloc, Some(workers));
    endless_goals(rt, alloc, Some(workers));
}

#[test]
fn workers_find_the_same_verdicts(rt: HostRuntime) {
    all_goals(&rt, rt.alloc(), 1);
    all_goals(&rt, rt.alloc(), 2);
    all_goals(&rt, rt.alloc(), 64);
}
