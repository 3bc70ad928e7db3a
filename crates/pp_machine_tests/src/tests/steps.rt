//! A machine that is moved by hand.
ghost use Rattle.std.specs.Prelude.{◌≡◌, ◌<◌};

use super::machines::{is_at, machine_of, take, text_of};
use pp_resolve::Machine;
use pp_term::Names;
use pp_walk::{Event, Steps};
use std::alloc::Global;
use std::marker::Brand;
use std::process::Abort;
use std::sync::ledger::{Blank, Ledger};

/// A move of a machine, or a look at it, and what is to come of it.
#[derive(Clone, Copy)]
enum Move {
    /// A step comes to this.
    Step(Event),
    /// A choice comes, and its alternative at this place leads on.
    Take(u64),
    /// Whether there is a choice to go back to.
    Back(bool),
    /// The row where the machine stands has this text.
    Stand(&'static str),
}

/// What a step comes to.
fn stepped<L: Ledger>(rt: &impl Abort, machine: &mut Machine<'_>, steps: &mut Steps<L>) -> Event {
    machine.step(steps).expect(rt, "memory")
}

/// What is to come of this move does.
fn expect_move<L: Ledger>(
    rt: &impl Abort,
    alloc: Global,
    names: &Names,
    machine: &mut Machine<'_>,
    steps: &mut Steps<L>,
    wanted: Move,
) {
    match wanted {
        Move::Step(event) => assert_eq!(rt; stepped(rt, machine, steps), event),
        Move::Take(at) => assert!(rt; take(rt, machine, at, steps)),
        Move::Back(goes) => assert_eq!(rt; machine.back(), goes),
        Move::Stand(row) => assert!(rt; is_at(rt, alloc, names, machine, row)),
    }
}

/// These moves, one after another, from the root of the only goal of the text.
fn walk<L: Ledger>(
    rt: &impl Abort,
    alloc: Global,
    blank: Blank,
    text: &[u8],
    depth: u32,
    moves: &[Move],
)
    requires name { blank.name ≡ L.name }
    requires parts { blank.parts ≡ L.parts }
    requires some { 0 < blank.parts }
{
    let text = text_of(rt, alloc, text);
    let mut machine = machine_of(rt, alloc, &text, depth);
    let mut steps: Steps<L> = Steps::new(blank);
    for wanted in moves {
        expect_move(rt, alloc, &text.names, &mut machine, &mut steps, *wanted);
    }
}

/// The machine of the text, with so many calls allowed, makes these moves.
fn expect_moves(rt: &impl Abort, alloc: Global, text: &[u8], depth: u32, moves: &[Move]) {
    walk::<Brand>(rt, alloc, Blank::new(1), text, depth, moves);
}

/// A goal that calls itself, with one call allowed: its only branch is cut at the second.
#[test]
fn a_branch_is_cut_at_its_depth(rt: HostRuntime) {
    expect_moves(
        &rt,
        rt.alloc(),
        b"p(X) :- p(X). ?- p(X) infers most.",
        1,
        &[
            Move::Step(Event::Choice(1)),
            Move::Take(0),
            Move::Step(Event::Loose),
            Move::Stand("_0"),
            Move::Back(true),
            Move::Back(false),
        ],
    );
}

/// Two facts, of which the second is chosen.
#[test]
fn the_second_alternative_is_taken(rt: HostRuntime) {
    expect_moves(
        &rt,
        rt.alloc(),
        b"eq(a,a). eq(b,b). ?- eq(X,Y) infers most.",
        10,
        &[
            Move::Step(Event::Choice(2)),
            Move::Take(1),
            Move::Step(Event::Answer),
            Move::Stand("b, b"),
        ],
    );
}

/// A built-in that computes.
#[test]
fn a_built_in_is_a_step(rt: HostRuntime) {
    expect_moves(
        &rt,
        rt.alloc(),
        b"?- plus(X,3,10) infers most.",
        10,
        &[
            Move::Step(Event::Went),
            Move::Step(Event::Answer),
            Move::Stand("7"),
        ],
    );
}
