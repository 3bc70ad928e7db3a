//! Names, clauses and queries.
use super::samples::{X, term};
use pp_term::{Clause, Goal, Goals, Item, Items, Mode, Names, Numbers, Pred, Query, Shape, Terms};
use std::alloc::Global;
use std::process::Abort;

/// The numbers that these texts get, one after another.
fn numbers(rt: &impl Abort, alloc: Global, names: &mut Names, texts: &[&[u8]]) -> Vec<u32> {
    let mut numbers = Vec::new(alloc);
    for text in texts {
        let number = names.intern(text).expect(rt, "memory");
        numbers.push(number).expect(rt, "memory");
    }
    numbers
}

#[test]
fn a_text_has_one_number(rt: HostRuntime) {
    let alloc = rt.alloc();
    let mut names = Names::new(alloc);
    let found = numbers(&rt, alloc, &mut names, &[b"eq", b"a", b"eq", b"", b"a"]);
    assert_eq!(rt; found.as_slice(), [0, 1, 0, 2, 1].as_slice());
    assert_eq!(rt; (names.find(b"a"), names.find(b"b")), (Some(1), None));
}

#[test]
fn names_are_copied(rt: HostRuntime) {
    let alloc = rt.alloc();
    let mut names = Names::new(alloc);
    numbers(&rt, alloc, &mut names, &[b"eq", b"a"]);
    let copy = names.copy().expect(&rt, "memory");
    assert_eq!(rt; (copy.len(), copy.find(b"a")), (2, Some(1)));
    for (number, text) in [(0, "eq"), (1, "a")] {
        if number < copy.len() {
            assert_eq!(rt; copy.text(number as u32), text.as_bytes());
        }
    }
}

const PRED: Pred = Pred { name: 3, arity: 1 };

fn arguments(rt: &impl Abort, alloc: Global) -> Terms {
    let mut terms = Vec::new(alloc);
    terms.push(term(rt, alloc, &[X])).expect(rt, "memory");
    Terms::from_vec(terms)
}

/// The clause of a predicate that calls itself.
fn clause(rt: &impl Abort, alloc: Global) -> Clause {
    let mut body = Vec::new(alloc);
    let goal = Goal::Call(Shape::User(PRED), arguments(rt, alloc));
    body.push(goal).expect(rt, "memory");
    Clause {
        pred: PRED,
        head: arguments(rt, alloc),
        body: Goals::from_vec(body),
        vars: 1,
    }
}

#[test]
fn clauses_are_copied(rt: HostRuntime) {
    let alloc = rt.alloc();
    let copy = clause(&rt, alloc).copy().expect(&rt, "memory");
    assert_eq!(rt; (copy.pred, copy.vars), (PRED, 1));
    assert_eq!(rt;
        (copy.head.as_slice().len(), copy.body.as_slice().len()),
        (1, 1)
    );
    assert_eq!(rt;
        (copy.head.into_vec().len(), copy.body.into_vec().len()),
        (1, 1)
    );
}

/// The query of one annotated goal.
fn query(rt: &impl Abort, alloc: Global) -> Query {
    let mut items = Vec::new(alloc);
    let item = Item::Infer(Shape::User(PRED), arguments(rt, alloc), Mode::Most);
    items.push(item).expect(rt, "memory");
    Query {
        vars: 1,
        named: Numbers::from_vec([7].to_vec(alloc).expect(rt, "memory")),
        items: Items::from_vec(items),
    }
}

#[test]
fn queries_are_copied(rt: HostRuntime) {
    let alloc = rt.alloc();
    let copy = query(&rt, alloc).copy().expect(&rt, "memory");
    assert_eq!(rt; (copy.vars, copy.items.as_slice().len()), (1, 1));
    assert_eq!(rt; copy.named.as_slice(), [7].as_slice());
    assert_eq!(rt;
        (copy.named.into_vec().len(), copy.items.into_vec().len()),
        (1, 1)
    );
}
