//! A lock by turns round a counter with a log of hits.
ghost use Rattle.std.specs.Prelude.{◌≡◌, ◌+◌, ◌≤◌, [], true, false, Some, All, IfOk, IfSome, length, vec_len};
ghost use Rattle.pp_turn.specs.Locks.{seat_count};
ghost use Rattle.pp_turn.specs.Logs.{Adds};
ghost use Rattle.pp_turn.specs.Seats.{AreSeats, IsSeatOf, Rests, SameSeat, is_in_turn, kept, seat_base, seat_number, seat_span};

use crate::player::{Player, Seen};
use pp_turn::{Kept, Seat, Turn};
use std::alloc::Global;
use std::sync::Wait;
use std::test::Fail;
use std::thread;
use std::thread::Threads;

/// How many threads hit, and how often each.
const PLAYERS: u32 = 4;

const TIMES: u64 = 10_000;

#[derive(Drop)]
pub struct Hit {
    seat: u32,
}

/// A counter whose log has each hit, and a mark that depends on all hits in their order.
#[derive(Drop)]
pub struct Counter {
    key: u64,
    hits: Vec<Hit>,
    mark: u64,
}

impl Kept for Counter {
    type Entry = Hit;

    type Base = u64;

    ghost log = { λ c. c.hits.items };

    ghost bearer = { λ h. h.seat };

    ghost base = { λ c. c.key };
}

fn marked(mark: u64, seat: u32) -> u64 {
    mark.wrapping_mul(31).wrapping_add(u64::from(seat) + 1)
}

// One hit more, where there is memory.
fn note(counter: &mut Counter, seat: u32)
    ensures key { counter.new.key ≡ counter.old.key }
    ensures log { Adds (λ h. h.seat) seat counter.old.hits.items counter.new.hits.items }
{
    match counter.hits.push(Hit { seat }) {
        Ok(()) => counter.mark = marked(counter.mark, seat),
        Err(_) => {}
    }
}

// A turn with one hit. The result is what the seat saw at its end.
fn hit_once<R: Wait>(rt: &R, turn: &Turn<Counter>, seat: &mut Seat<Counter>, number: u32) -> Seen
    requires seat { IsSeatOf turn.now seat.old × (is_in_turn seat.old ≡ false) }
    requires number { seat_number seat.old ≡ number }
    ensures seat { SameSeat seat.old seat.new }
    ensures out { is_in_turn seat.new ≡ false }
{
    let mut value = turn.enter(rt, seat);
    note(&mut value, number);
    let seen = Seen {
        length: value.hits.len(),
        mark: value.mark,
    };
    turn.leave(seat, value);
    seen
}

fn fresh(alloc: Global) -> Counter
    ensures { (result.key ≡ 7) × (result.hits.items ≡ []) }
{
    Counter {
        key: 7,
        hits: Vec::new(alloc),
        mark: 0,
    }
}

// The seat with the highest number.
fn last_seat(turn: &Turn<Counter>, seats: &mut Vec<Seat<Counter>>) -> Option<Seat<Counter>>
    requires { AreSeats turn.now 7 seats.old.items }
    ensures seats { AreSeats turn.now 7 seats.new.items }
    ensures last { IfSome result (λ s. Rests turn.now (Some 7) (length seats.new.items) 1 [] s) }
    ensures count { IfSome result (λ s. vec_len seats.old ≡ vec_len seats.new + 1) }
{
    seats.pop()
}

// Two seats at a counter without hits.
fn two_seats(alloc: Global) -> Option<(Turn<Counter>, Seat<Counter>, Seat<Counter>)>
    ensures { IfSome result (λ t. (seat_count t.0 ≡ 2) × Rests t.0 (Some 7) 0 1 [] t.1 × Rests t.0 (Some 7) 1 1 [] t.2) }
{
    let Ok((turn, mut seats)) = Turn::new(alloc, fresh(alloc), 2) else {
        return None;
    };
    let two = last_seat(&turn, &mut seats)?;
    let one = last_seat(&turn, &mut seats)?;
    Some((turn, one, two))
}

// What two seats see, one after the other, and the counter at the end.
fn two_turns<R: Wait>(rt: &R, alloc: Global) -> Option<(usize, usize, Counter)> {
    let (turn, mut one, mut two) = two_seats(alloc)?;
    let first = hit_once(rt, &turn, &mut one, 0);
    let second = hit_once(rt, &turn, &mut two, 1);
    turn.join_seat(&mut one, two);
    Some((first.length, second.length, turn.close(one)))
}

#[test]
fn an_entry_is_seen_at_the_next_turn(rt: HostRuntime) -> Result<(), Fail> {
    let Some((first, second, counter)) = two_turns(&rt, rt.alloc()) else {
        panic!(rt; "no memory")
    };
    assert!(rt; first == 1 && second == 2 && counter.key == 7);
    assert!(rt; hits_of(&counter, 0) == 1 && hits_of(&counter, 1) == 1);
    assert!(rt; counter.mark == marked(marked(0, 0), 1));
    Ok(())
}

fn pause() {
    for _ in 0..1000u32 {
        thread::yield_now();
    }
}

// A seat that is in its turn hits after a while.
fn hit_late(turn: &Turn<Counter>, mut seat: Seat<Counter>, mut value: Counter) -> Seat<Counter>
    requires seat { IsSeatOf turn.now seat × (is_in_turn seat ≡ true) × (seat_number seat ≡ 0) }
    requires value { (Some value.key ≡ seat_base seat) × (kept seat ≡ value.hits.items) }
    ensures { SameSeat seat result × (is_in_turn result ≡ false) }
{
    pause();
    note(&mut value, 0);
    turn.leave(&mut seat, value);
    seat
}

// One seat is in its turn when the other thread asks for one. The result is what that one saw.
fn held<R: Threads + Wait + Sync>(rt: &R, alloc: Global) -> Option<Seen> {
    let (turn, mut one, mut two) = two_seats(alloc)?;
    let shared = &turn;
    let value = shared.enter(rt, &mut one);
    let (_, seen) = thread::join(
        rt,
        move || -> Seat<Counter>
            requires { IsSeatOf shared.now one × (is_in_turn one ≡ true) × (seat_number one ≡ 0) × (Some value.key ≡ seat_base one) × (kept one ≡ value.hits.items) }
        { hit_late(shared, one, value) },
        move || -> Seen
            requires { IsSeatOf shared.now two × (is_in_turn two ≡ false) × (seat_number two ≡ 1) }
        { hit_once(rt, shared, &mut two, 1) },
    );
    Some(seen)
}

#[test]
fn a_turn_waits_for_the_one_before(rt: HostRuntime) -> Result<(), Fail> {
    let Some(seen) = held(&rt, rt.alloc()) else {
        panic!(rt; "no memory")
    };
    assert!(rt; seen.length == 2);
    Ok(())
}

fn hits<R: Wait>(
    rt: &R,
    turn: &Turn<Counter>,
    mut seat: Seat<Counter>,
    number: u32,
) -> (Seat<Counter>, Seen)
    requires seat { IsSeatOf turn.now seat × (is_in_turn seat ≡ false) }
    requires number { seat_number seat ≡ number }
    ensures seat { SameSeat seat result.0 }
    ensures out { is_in_turn result.0 ≡ false }
{
    let mut last = Seen { length: 0, mark: 0 };
    for _ in 0..TIMES {
        last = hit_once(rt, turn, &mut seat, number);
    }
    (seat, last)
}

fn play<R: Wait>(rt: &R, turn: &Turn<Counter>, player: Player) -> Player
    requires { IsSeatOf turn.now player.seat }
    ensures { IsSeatOf turn.now result.seat }
{
    let Player {
        seat,
        number,
        last: _,
    } = player;
    let (seat, last) = hits(rt, turn, seat, number);
    Player { seat, number, last }
}

// The players, the one with the number 0 last.
fn players(
    alloc: Global,
    turn: &Turn<Counter>,
    mut seats: Vec<Seat<Counter>>,
) -> Option<Vec<Player>>
    requires { AreSeats turn.now 7 seats.items × (vec_len seats ≤ 4) }
    ensures { IfSome result (λ players. All (λ p. IsSeatOf turn.now p.seat) players.items) }
{
    let mut all = Vec::new(alloc);
    while let Some(seat) = last_seat(turn, &mut seats) {
        let number = seats.len() as u32;
        let last = Seen { length: 0, mark: 0 };
        all.push(Player { seat, number, last }).ok()?;
    }
    Some(all)
}

// All seats are joined, and the counter comes back, with what each player saw last.
fn gathered(turn: Turn<Counter>, mut all: Vec<Player>, lasts: &mut Vec<Seen>) -> Option<Counter>
    requires count { seat_count turn ≡ 4 }
    requires seats { All (λ p. IsSeatOf turn p.seat) all.items }
{
    let Player {
        mut seat,
        number,
        last,
    } = all.pop()?;
    if number != 0 {
        return None;
    }
    lasts.push(last).ok()?;
    let mut joined = 1;
    while let Some(player) = all.pop() {
        let Player {
            seat: next,
            number,
            last,
        } = player;
        if number != joined || joined >= PLAYERS {
            return None;
        }
        lasts.push(last).ok()?;
        turn.join_seat(&mut seat, next);
        joined += 1;
    }
    if joined == PLAYERS {
        Some(turn.close(seat))
    } else {
        None
    }
}

fn all_hits<R: Threads + Wait + Sync>(
    rt: &R,
    alloc: Global,
    lasts: &mut Vec<Seen>,
) -> Option<Counter> {
    let Ok((turn, seats)) = Turn::new(alloc, fresh(alloc), PLAYERS) else {
        return None;
    };
    let shared = &turn;
    let all = players(alloc, shared, seats)?;
    let all = thread::map_vec(
        rt,
        all,
        &|player: Player| -> Player
            requires { IsSeatOf shared.now player.seat }
            ensures { IsSeatOf shared.entry.now result.seat }
        { play(rt, shared, player) },
    )
    .ok()?;
    gathered(turn, all, lasts)
}

// Whether the log had this mark when it had this length.
fn began_so(counter: &Counter, seen: &Seen) -> bool {
    let mut mark = 0;
    for hit in counter.hits.iter().take(seen.length) {
        mark = marked(mark, hit.seat);
    }
    mark == seen.mark
}

fn hits_of(counter: &Counter, seat: u32) -> u64 {
    let mut count = 0u64;
    for hit in counter.hits.iter() {
        if hit.seat == seat {
            count = count.wrapping_add(1);
        }
    }
    count
}

#[test]
fn the_hits_of_four_threads_add_up(rt: HostRuntime) -> Result<(), Fail> {
    let mut lasts = Vec::new(rt.alloc());
    let Some(counter) = all_hits(&rt, rt.alloc(), &mut lasts) else {
        panic!(rt; "no memory")
    };
    for seat in 0..PLAYERS {
        assert!(rt; hits_of(&counter, seat) == TIMES);
    }
    assert!(rt; lasts.len() == 4 && counter.hits.len() == 40_000);
    for seen in lasts.iter() {
        assert!(rt; began_so(&counter, seen));
    }
    Ok(())
}
