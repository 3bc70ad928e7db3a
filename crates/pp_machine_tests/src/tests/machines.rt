//! A machine at the root of the only goal of a text.
ghost use Rattle.std.specs.Prelude.{◌≡◌, ◌<◌, All, [], length};
ghost use Rattle.pp_algebra.specs.Terms.{count};
ghost use Rattle.pp_term.specs.WellFormed.{IsClause};

use pp_clause::Clauses;
use pp_print::row_text;
use pp_read::{ClauseList, read};
use pp_resolve::Machine;
use pp_term::{Item, Names, Pred, Query, Row, Shape, Terms};
use pp_walk::{Event, Steps};
use std::alloc::Global;
use std::process::Abort;
use std::sync::ledger::Ledger;

/// A text that was read: its names, its clauses as a table, and its query.
#[derive(Drop)]
pub struct Text {
    pub names: Names,
    pub clauses: Clauses,
    pub query: Query,
}

fn table(rt: &impl Abort, alloc: Global, list: ClauseList) -> Clauses
    requires { All IsClause list }
{
    let mut clauses = Clauses::new(alloc);
    for clause in list.into_vec() {
        clauses.add(clause).expect(rt, "memory");
    }
    clauses
}

/// What a text says.
pub fn text_of(rt: &impl Abort, alloc: Global, text: &[u8]) -> Text {
    assert!(rt; text.len() <= 1000);
    let program = read(alloc, text).expect(rt, "a text without fault");
    Text {
        names: program.names,
        clauses: table(rt, alloc, program.clauses),
        query: program.query,
    }
}

/// The arguments alone, each variable of domain `any`.
fn face(rt: &impl Abort, alloc: Global, arguments: &Terms) -> Row {
    let mut columns = Vec::new(alloc);
    for argument in arguments.as_slice() {
        columns
            .push(argument.copy().expect(rt, "memory"))
            .expect(rt, "memory");
    }
    Row::canon(alloc, columns, &[]).expect(rt, "memory")
}

/// How many columns a face has.
fn width(rt: &impl Abort, face: &Row) -> u32
    ensures { count face.now.columns ≡ result }
{
    u32::try_from(face.columns().len()).expect(rt, "a narrow row")
}

/// The predicate of this name with as many arguments as the face has columns.
fn pred(rt: &impl Abort, name: u32, face: &Row) -> Pred
    ensures { count face.now.columns ≡ result.arity }
{
    Pred {
        name,
        arity: width(rt, face),
    }
}

/// The machine at the root of the only goal of the text's query.
pub fn machine_of<'a>(rt: &impl Abort, alloc: Global, text: &'a Text, depth: u32) -> Machine<'a>
    ensures { result.place.above ≡ [] }
{
    let [Item::Infer(shape, arguments, _)] = text.query.items.as_slice() else {
        panic!(rt; "not one goal that infers")
    };
    let face = face(rt, alloc, arguments);
    let shape = match shape {
        Shape::User(called) => Shape::User(pred(rt, called.name, &face)),
        _ => {
            assert_eq!(rt; width(rt, &face), 3);
            Shape::Plus
        }
    };
    Machine::start(alloc, &text.clauses, shape, &face, depth).expect(rt, "memory")
}

/// Whether the alternative at this place of the next choice leads on.
pub fn take<L: Ledger>(
    rt: &impl Abort,
    machine: &mut Machine<'_>,
    at: u64,
    steps: &mut Steps<L>,
) -> bool {
    match machine.step(steps).expect(rt, "memory") {
        Event::Choice(count) => {
            assert!(rt; at < count);
            machine.choose(at, steps).expect(rt, "memory")
        }
        _ => panic!(rt; "no choice"),
    }
}

/// Whether the row where the machine stands has this text.
pub fn is_at(
    rt: &impl Abort,
    alloc: Global,
    names: &Names,
    machine: &Machine<'_>,
    text: &str,
) -> bool {
    let row = machine.row().expect(rt, "memory");
    row_text(alloc, names, &row).expect(rt, "memory").as_slice() == text.as_bytes()
}
