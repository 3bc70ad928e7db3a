//! What a program holds, as text: a line for each clause and one for the query, with its number of variables.
use pp_domain::Domain;
use pp_print::{domain_text, term_text};
use pp_read::Program;
use pp_term::{Clause, Goal, Item, Mode, Names, Query, Relation, Shape, Term, Terms};
use std::alloc::Global;
use std::process::Abort;

fn put(rt: &impl Abort, out: &mut Vec<u8>, text: &[u8]) {
    out.extend_from_slice(text).expect(rt, "memory");
}

fn put_term(rt: &impl Abort, alloc: Global, out: &mut Vec<u8>, names: &Names, term: &Term) {
    let text = term_text(alloc, names, term).expect(rt, "memory");
    put(rt, out, &text);
}

fn put_name(rt: &impl Abort, alloc: Global, out: &mut Vec<u8>, names: &Names, name: u32) {
    let atom = Term::atom(alloc, name).expect(rt, "memory");
    put_term(rt, alloc, out, names, &atom);
}

/// Each with a space before it.
fn put_terms(rt: &impl Abort, alloc: Global, out: &mut Vec<u8>, names: &Names, terms: &Terms) {
    for term in terms.as_slice() {
        put(rt, out, b" ");
        put_term(rt, alloc, out, names, term);
    }
}

fn put_domain(rt: &impl Abort, alloc: Global, out: &mut Vec<u8>, domain: &Option<Domain>) {
    match domain {
        Some(domain) => {
            let text = domain_text(alloc, domain).expect(rt, "memory");
            put(rt, out, &text);
        }
        None => put(rt, out, b"[]"),
    }
}

fn put_shape(rt: &impl Abort, alloc: Global, out: &mut Vec<u8>, names: &Names, shape: Shape) {
    match shape {
        Shape::User(pred) => put_name(rt, alloc, out, names, pred.name),
        Shape::Plus => put(rt, out, b"PLUS"),
        Shape::Times => put(rt, out, b"TIMES"),
        Shape::Indomain => put(rt, out, b"INDOMAIN"),
    }
}

fn relation_text(relation: Relation) -> &'static [u8] {
    match relation {
        Relation::Less => b" #< ",
        Relation::AtMost => b" #=< ",
        Relation::Equal => b" #= ",
        Relation::Differ => b" #\\= ",
    }
}

fn mode_text(mode: Mode) -> &'static [u8] {
    match mode {
        Mode::Most => b" most",
        Mode::Unique => b" unique",
        Mode::Consistent => b" consistent",
    }
}

/// Two terms with this text between them.
fn put_pair(
    rt: &impl Abort,
    alloc: Global,
    out: &mut Vec<u8>,
    names: &Names,
    pair: (&Term, &Term),
    between: &[u8],
) {
    put_term(rt, alloc, out, names, pair.0);
    put(rt, out, between);
    put_term(rt, alloc, out, names, pair.1);
}

fn put_member(
    rt: &impl Abort,
    alloc: Global,
    out: &mut Vec<u8>,
    names: &Names,
    term: &Term,
    domain: &Option<Domain>,
) {
    put_term(rt, alloc, out, names, term);
    put(rt, out, b" :: ");
    put_domain(rt, alloc, out, domain);
}

fn put_call(
    rt: &impl Abort,
    alloc: Global,
    out: &mut Vec<u8>,
    names: &Names,
    shape: Shape,
    terms: &Terms,
) {
    put_shape(rt, alloc, out, names, shape);
    put_terms(rt, alloc, out, names, terms);
}

fn put_goal(rt: &impl Abort, alloc: Global, out: &mut Vec<u8>, names: &Names, goal: &Goal) {
    match goal {
        Goal::Call(shape, terms) => put_call(rt, alloc, out, names, *shape, terms),
        Goal::Equate(left, right) => put_pair(rt, alloc, out, names, (left, right), b" = "),
        Goal::Member(term, domain) => put_member(rt, alloc, out, names, term, domain),
        Goal::Compare(relation, left, right) => {
            put_pair(
                rt,
                alloc,
                out,
                names,
                (left, right),
                relation_text(*relation),
            )
        }
    }
}

fn put_item(rt: &impl Abort, alloc: Global, out: &mut Vec<u8>, names: &Names, item: &Item) {
    match item {
        Item::Equate(left, right) => put_pair(rt, alloc, out, names, (left, right), b" = "),
        Item::Member(term, domain) => put_member(rt, alloc, out, names, term, domain),
        Item::Infer(shape, terms, mode) => {
            put_call(rt, alloc, out, names, *shape, terms);
            put(rt, out, mode_text(*mode));
        }
    }
}

fn put_count(rt: &impl Abort, alloc: Global, out: &mut Vec<u8>, count: u32) {
    let text = format!(in alloc; " ({count})").expect(rt, "memory");
    put(rt, out, text.as_bytes());
}

fn put_clause(rt: &impl Abort, alloc: Global, out: &mut Vec<u8>, names: &Names, clause: &Clause) {
    put_call(
        rt,
        alloc,
        out,
        names,
        Shape::User(clause.pred),
        &clause.head,
    );
    for goal in clause.body.as_slice() {
        put(rt, out, b"; ");
        put_goal(rt, alloc, out, names, goal);
    }
    put_count(rt, alloc, out, clause.vars);
    put(rt, out, b"\n");
}

fn put_query(rt: &impl Abort, alloc: Global, out: &mut Vec<u8>, names: &Names, query: &Query) {
    put(rt, out, b"?-");
    for item in query.items.as_slice() {
        put(rt, out, b"; ");
        put_item(rt, alloc, out, names, item);
    }
    put_count(rt, alloc, out, query.vars);
    for name in query.named.as_slice() {
        put(rt, out, b" ");
        put_name(rt, alloc, out, names, *name);
    }
}

pub fn written(rt: &impl Abort, alloc: Global, program: &Program) -> Vec<u8> {
    let mut out = Vec::new(alloc);
    for clause in program.clauses.as_slice() {
        put_clause(rt, alloc, &mut out, &program.names, clause);
    }
    put_query(rt, alloc, &mut out, &program.names, &program.query);
    out
}
