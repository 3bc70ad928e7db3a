//! Who is told of a run's changes, and for how long.
ghost use Rattle.std.specs.Prelude.{◌≤◌};

use super::words_of;
use pp_io::{SteadySink, SteadySource};
use pp_run::{Status, alone};
use pp_term::{Names, Row};
use pp_watch::{Change, FirstFew, Keep, Recorder, Watcher, tell_all};
use std::alloc::Global;
use std::process::Abort;

/// Three turns narrow a goal, and two don't.
const CHAIN: &str = "p(1,2). p(2,3). ?- p(X,Y) infers most, p(Y,Z) infers most.";

const TOLD: &[u8] =
    b"turn 1 goal 1: _0, _1 | _0 :: [1..2], _1 :: [2..3]\nturn 2 goal 2: 2, 3\nturn 3 goal 1: 1\n";

const ANSWER: &[u8] = b"X = 1\nY = 2\nZ = 3\nyes\n";

/// A run with one that notes so many changes before a recorder: how many watchers are left, what they tell, and what is
/// written.
fn ran(rt: &impl Abort, alloc: Global, room: u64) -> (usize, Vec<u8>, Vec<u8>)
    requires { 1 ≤ room }
{
    let words = words_of(rt, alloc, &["alone", "--trace"]);
    let text = Vec::from_slice(alloc, CHAIN.as_bytes()).expect(rt, "memory");
    let mut source = SteadySource::new(text, 65_536);
    let mut sink = SteadySink::new(alloc, 4_096).expect(rt, "memory");
    let mut watchers: Vec<Box<dyn Watcher>> = Vec::new(alloc);
    let few = Box::new(alloc, FirstFew::new(alloc, room)).expect(rt, "memory");
    watchers.push(few).expect(rt, "memory");
    let recorder = Box::new(alloc, Recorder::new(alloc)).expect(rt, "memory");
    watchers.push(recorder).expect(rt, "memory");
    let status = alone(alloc, &words, &mut source, &mut sink, &mut watchers);
    assert_eq!(rt; status, Status::Yes);
    let told = tell_all(alloc, &Names::new(alloc), &watchers).expect(rt, "memory");
    let written = Vec::from_slice(alloc, sink.bytes()).expect(rt, "memory");
    (watchers.len(), told, written)
}

/// So many watchers are left, and each tells all changes, also before the answer.
fn expect(rt: &impl Abort, alloc: Global, room: u64, left: usize)
    requires { 1 ≤ room }
{
    let (count, told, written) = ran(rt, alloc, room);
    assert_eq!(rt; count, left);
    let mut wanted = Vec::new(alloc);
    for _ in 0..left {
        wanted.extend_from_slice(TOLD).expect(rt, "memory");
    }
    assert_eq!(rt; told, wanted);
    wanted.extend_from_slice(ANSWER).expect(rt, "memory");
    assert_eq!(rt; written, wanted);
}

#[test]
fn one_that_notes_one_change_leaves_and_the_recorder_has_all(rt: HostRuntime) {
    expect(&rt, rt.alloc(), 1, 1);
}

#[test]
fn one_with_room_for_all_changes_leaves_with_the_last(rt: HostRuntime) {
    expect(&rt, rt.alloc(), 3, 1);
    expect(&rt, rt.alloc(), 4, 2);
}

/// The row without columns.
fn row(rt: &impl Abort, alloc: Global) -> Row {
    Row::canon(alloc, Vec::new(alloc), &[]).expect(rt, "memory")
}

/// A change of a query without variables, in this turn.
fn change(rt: &impl Abort, alloc: Global, turn: u64) -> Change {
    Change {
        turn,
        goal: 1,
        given: row(rt, alloc),
        store: row(rt, alloc),
    }
}

/// The watcher tells these bytes.
fn expect_told(rt: &impl Abort, alloc: Global, watcher: &impl Watcher, wanted: &[u8]) {
    let told = watcher.tell(alloc, &Names::new(alloc));
    assert_eq!(rt; told.expect(rt, "memory").as_slice(), wanted);
}

#[test]
fn the_first_few_are_noted(rt: HostRuntime) {
    let alloc = rt.alloc();
    let mut few = FirstFew::new(alloc, 2);
    assert_eq!(rt; few.note(&change(&rt, alloc, 3)), Ok(Keep::Stay));
    assert_eq!(rt; few.note(&change(&rt, alloc, 7)), Ok(Keep::Leave));
    expect_told(&rt, alloc, &few, b"turn 3 goal 1: \nturn 7 goal 1: \n");
}

#[test]
fn a_recorder_that_noted_nothing_tells_nothing(rt: HostRuntime) {
    let alloc = rt.alloc();
    expect_told(&rt, alloc, &Recorder::new(alloc), b"");
}
