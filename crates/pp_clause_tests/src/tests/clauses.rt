//! Clauses by place, and the index by first argument.
ghost use Rattle.std.specs.Prelude.{All};
ghost use Rattle.pp_term.specs.WellFormed.{IsClause};

use pp_clause::{Clauses, First, Kind};
use pp_read::{Program, read};
use pp_term::{Cell, Clause, Goal, Pred, Term};
use pp_tests::Test;
use std::alloc::Global;
use std::process::Abort;

/// The program of a text.
fn program(rt: &impl Abort, alloc: Global, text: &[u8]) -> Program
    ensures { All IsClause result.clauses }
{
    assert!(rt; text.len() <= 4_194_304);
    read(alloc, text).expect(rt, "a program")
}

/// The table of its clauses.
fn table(rt: &impl Abort, alloc: Global, program: &Program) -> Clauses
    requires { All IsClause program.now.clauses }
{
    let mut table = Clauses::new(alloc);
    for clause in program.clauses.as_slice() {
        table
            .add(clause.copy().expect(rt, "memory"))
            .expect(rt, "memory");
    }
    table
}

/// The place that each of its clauses is given, added one after another.
fn places(rt: &impl Abort, alloc: Global, program: &Program) -> Vec<u32>
    requires { All IsClause program.now.clauses }
{
    let mut table = Clauses::new(alloc);
    let mut places = Vec::new(alloc);
    for clause in program.clauses.as_slice() {
        let place = table
            .add(clause.copy().expect(rt, "memory"))
            .expect(rt, "memory");
        places.push(place).expect(rt, "memory");
    }
    places
}

/// The number of a name of the text.
fn name(rt: &impl Abort, program: &Program, text: &[u8]) -> u32 {
    program.names.find(text).expect(rt, "a name")
}

/// These are the places of clauses that may match.
fn expect_candidates(rt: &impl Abort, table: &Clauses, pred: Pred, first: First, wanted: &[u32]) {
    let mut candidates = table.candidates(pred, first);
    for place in wanted {
        assert_eq!(rt; candidates.next(), Some(*place));
    }
    assert_eq!(rt; candidates.next(), None);
}

#[test]
fn a_first_argument_leaves_out_other_tops(rt: HostRuntime) {
    let program = program(
        &rt,
        rt.alloc(),
        b"p(a). p(1). p(X). p(f(b)). ?- p(X) infers most.",
    );
    let table = table(&rt, rt.alloc(), &program);
    let a = name(&rt, &program, b"a");
    let f = name(&rt, &program, b"f");
    let p = Pred {
        name: name(&rt, &program, b"p"),
        arity: 1,
    };
    expect_candidates(&rt, &table, p, First::Int(1), &[1, 2]);
    expect_candidates(&rt, &table, p, First::Int(2), &[2]);
    expect_candidates(&rt, &table, p, First::Atom(a), &[0, 2]);
    expect_candidates(&rt, &table, p, First::Functor(f, 1), &[2, 3]);
    expect_candidates(&rt, &table, p, First::Functor(f, 2), &[2]);
    expect_candidates(&rt, &table, p, First::Free, &[0, 1, 2, 3]);
}

/// The facts `p(0).` and so on, so many, with a sentence behind `p(50000).`, and a query.
fn many_facts(rt: &impl Abort, alloc: Global, count: u32, sentence: &[u8]) -> Vec<u8> {
    let mut text = Vec::new(alloc);
    for number in 0..count {
        let fact = format!(in alloc; "p({number}). ").expect(rt, "memory");
        text.extend_from_slice(fact.as_bytes()).expect(rt, "memory");
        if number == 50_000 {
            text.extend_from_slice(sentence).expect(rt, "memory");
        }
    }
    text.extend_from_slice(b"?- p(X) infers most.")
        .expect(rt, "memory");
    text
}

#[test]
fn an_integer_among_65535_has_one_place(rt: HostRuntime) {
    let text = many_facts(&rt, rt.alloc(), 65_535, b"");
    let program = program(&rt, rt.alloc(), &text);
    let table = table(&rt, rt.alloc(), &program);
    let p = Pred {
        name: name(&rt, &program, b"p"),
        arity: 1,
    };
    assert_eq!(rt; table.count(p), 65_535);
    expect_candidates(&rt, &table, p, First::Int(60_000), &[60_000]);
    expect_candidates(&rt, &table, p, First::Int(65_535), &[]);
}

#[test]
fn a_variable_among_65535_facts_is_given_to_all(rt: HostRuntime) {
    let text = many_facts(&rt, rt.alloc(), 65_534, b"p(X). ");
    let program = program(&rt, rt.alloc(), &text);
    let table = table(&rt, rt.alloc(), &program);
    let p = Pred {
        name: name(&rt, &program, b"p"),
        arity: 1,
    };
    assert_eq!(rt; table.count(p), 65_535);
    expect_candidates(&rt, &table, p, First::Int(7), &[7, 50_001]);
    expect_candidates(&rt, &table, p, First::Int(60_000), &[50_001, 60_001]);
    expect_candidates(&rt, &table, p, First::Atom(0), &[50_001]);
}

/// Which kind a goal has: a letter for each.
fn letter(kind: &Kind) -> u8 {
    match kind {
        Kind::User(_) => b'u',
        Kind::Equate => b'=',
        Kind::Member(Some(_)) => b'm',
        Kind::Member(None) => b'e',
        Kind::Test(Test::Less) => b'<',
        Kind::Test(Test::Plus) => b'+',
        Kind::Test(_) => b't',
    }
}

/// The first clause's goals have these kinds, and as many cells.
fn expect_body(rt: &impl Abort, table: &Clauses, wanted: &[(u8, usize)]) {
    assert!(rt; 0 < table.len());
    for (place, (kind, cells)) in wanted.iter().enumerate() {
        let place = u32::try_from(place).expect(rt, "few goals");
        assert!(rt; place < table.body_len(0));
        let goal = table.goal(0, place);
        assert_eq!(rt; letter(&goal.kind), *kind);
        assert_eq!(rt; goal.arguments.len(), *cells);
    }
}

#[test]
fn goals_are_lent_as_they_were_written(rt: HostRuntime) {
    let program = program(
        &rt,
        rt.alloc(),
        b"q(X,g(Y)) :- r(Y), X #< Y, X = g(Y), X :: [1..3], plus(X,Y,2). r(a). ?- q(X,Y) infers most.",
    );
    let table = table(&rt, rt.alloc(), &program);
    expect_body(
        &rt,
        &table,
        &[(b'u', 1), (b'<', 2), (b'=', 3), (b'm', 1), (b'+', 3)],
    );
    assert!(rt; 0 < table.len());
    assert_eq!(rt; table.variables(0), 2);
    assert_eq!(rt; table.head(0).len(), 3);
    assert_eq!(rt; table.head(0).last().copied(), Some(Cell::Var(1)));
}

const MIXED: &[u8] = b"p(a). q(1). p(2). q(X) :- p(X). p(3). ?- p(X) infers most.";

#[test]
fn a_clause_is_added_behind_those_of_its_predicate(rt: HostRuntime) {
    let program = program(&rt, rt.alloc(), MIXED);
    let places = places(&rt, rt.alloc(), &program);
    assert_eq!(rt; places.as_slice(), [0, 0, 1, 1, 2].as_slice());
}

/// The number of the clause at a place of its predicate, and the first cell of its head.
fn found(rt: &impl Abort, table: &Clauses, pred: Pred, place: u32) -> (u32, Option<Cell>) {
    assert!(rt; place < table.count(pred));
    let number = table.number(table.predicate(pred), place);
    let head = table.get(pred, place).head.as_slice();
    let cell = head
        .first()
        .and_then(|term: &Term| term.cells().first().copied());
    (number, cell)
}

/// The predicate's clauses have these numbers and first cells, in order, and there are no others.
fn expect_clauses(rt: &impl Abort, table: &Clauses, pred: Pred, wanted: &[(u32, Cell)]) {
    assert_eq!(rt; table.count(pred) as usize, wanted.len());
    for (place, (number, cell)) in wanted.iter().enumerate() {
        let place = u32::try_from(place).expect(rt, "few clauses");
        assert_eq!(rt; found(rt, table, pred, place), (*number, Some(*cell)));
    }
}

/// These are the clauses of both predicates of the text above.
fn expect_mixed(rt: &impl Abort, program: &Program, table: &Clauses) {
    let a = name(rt, program, b"a");
    let p = Pred {
        name: name(rt, program, b"p"),
        arity: 1,
    };
    let q = Pred {
        name: name(rt, program, b"q"),
        arity: 1,
    };
    expect_clauses(
        rt,
        table,
        p,
        &[(0, Cell::Atom(a)), (2, Cell::Int(2)), (4, Cell::Int(3))],
    );
    expect_clauses(rt, table, q, &[(1, Cell::Int(1)), (3, Cell::Var(0))]);
}

#[test]
fn a_clause_is_found_by_its_place(rt: HostRuntime) {
    let program = program(&rt, rt.alloc(), MIXED);
    let table = table(&rt, rt.alloc(), &program);
    expect_mixed(&rt, &program, &table);
}

#[test]
fn a_copy_has_the_same_clauses(rt: HostRuntime) {
    let program = program(&rt, rt.alloc(), MIXED);
    let copy = table(&rt, rt.alloc(), &program)
        .copy()
        .expect(&rt, "memory");
    expect_mixed(&rt, &program, &copy);
}

/// The clause at a place of its predicate, with the numbers of its variables counted from this one.
fn fresh(rt: &impl Abort, table: &Clauses, pred: Pred, place: u32, from: u32) -> Clause {
    assert!(rt; place < table.count(pred));
    let vars = table.get(pred, place).vars;
    assert!(rt; u64::from(from) + u64::from(vars) <= u64::from(u32::MAX));
    table.fresh(pred, place, from).expect(rt, "memory")
}

/// Puts the cells of terms behind others.
fn push(rt: &impl Abort, cells: &mut Vec<Cell>, terms: &[Term]) {
    for term in terms {
        cells.extend_from_slice(term.cells()).expect(rt, "memory");
    }
}

/// Puts the cells of a goal behind others.
fn push_goal(rt: &impl Abort, cells: &mut Vec<Cell>, goal: &Goal) {
    match goal {
        Goal::Call(_, arguments) => push(rt, cells, arguments.as_slice()),
        Goal::Equate(left, right) | Goal::Compare(_, left, right) => {
            cells.extend_from_slice(left.cells()).expect(rt, "memory");
            cells.extend_from_slice(right.cells()).expect(rt, "memory");
        }
        Goal::Member(term, _) => cells.extend_from_slice(term.cells()).expect(rt, "memory"),
    }
}

/// The cells of the clause's head and body.
fn cells_of(rt: &impl Abort, alloc: Global, clause: &Clause) -> Vec<Cell> {
    let mut cells = Vec::new(alloc);
    push(rt, &mut cells, clause.head.as_slice());
    for goal in clause.body.as_slice() {
        push_goal(rt, &mut cells, goal);
    }
    cells
}

#[test]
fn the_variables_of_a_fresh_clause_are_counted_from_a_number(rt: HostRuntime) {
    let program = program(
        &rt,
        rt.alloc(),
        b"q(X,g(Y)) :- r(Y), X #< Y, Y = X, X :: 1..3, plus(X,Y,2). r(a). ?- q(X,Y) infers most.",
    );
    let table = table(&rt, rt.alloc(), &program);
    let q = Pred {
        name: name(&rt, &program, b"q"),
        arity: 2,
    };
    let g = Cell::Compound(name(&rt, &program, b"g"), 1);
    let (x, y) = (Cell::Var(40), Cell::Var(41));
    let fresh = fresh(&rt, &table, q, 0, 40);
    assert_eq!(rt; fresh.vars, 42);
    assert_eq!(rt;
        cells_of(&rt, rt.alloc(), &fresh).as_slice(),
        [x, g, y, y, x, y, y, x, x, x, y, Cell::Int(2)].as_slice()
    );
}
