//! Turns at a lock round a number.
ghost use Rattle.std.specs.Prelude.{◌≡◌, ◌≤◌, [], All, IfOk};
ghost use Rattle.pp_turn.specs.Seats.{AreSeats};
ghost use Rattle.pp_shared_bench.specs.Seats.{IsAtRest};

use pp_turn::{Kept, Seat, Turn};
use std::alloc::{AllocError, Global};
use std::sync::Wait;
use std::thread;
use std::thread::Threads;

/// A number that each turn raises, with no log.
#[derive(Drop)]
pub struct Total {
    sum: u64,
}

impl Kept for Total {
    type Entry = u32;

    type Base = u32;

    ghost log = { λ _. [] };

    ghost bearer = { λ n. n };

    ghost base = { λ _. 0 };
}

fn one_turn<R: Wait>(rt: &R, turn: &Turn<Total>, seat: &mut Seat<Total>) -> u64
    requires { IsAtRest turn.now seat.old }
    ensures { IsAtRest turn.now seat.new }
{
    let mut value = turn.enter(rt, seat);
    value.sum = value.sum.wrapping_add(1);
    let sum = value.sum;
    turn.leave(seat, value);
    sum
}

/// So many turns; the result is how many there were by then.
fn take_turns<R: Wait>(rt: &R, turn: &Turn<Total>, mut seat: Seat<Total>, times: u32) -> u64
    requires { IsAtRest turn.now seat }
{
    let mut last = 0;
    for _ in 0..times {
        last = one_turn(rt, turn, &mut seat);
    }
    last
}

/// The seats of a new lock, the last first.
fn at_rest(
    alloc: Global,
    turn: &Turn<Total>,
    mut seats: Vec<Seat<Total>>,
) -> Result<Vec<Seat<Total>>, AllocError>
    requires { AreSeats turn.now 0 seats.items }
    ensures { IfOk result (λ all. All (IsAtRest turn.now) all.items) }
{
    let mut all = Vec::new(alloc);
    while let Some(seat) = seats.pop() {
        all.push(seat)?;
    }
    Ok(all)
}

/// How many turns so many threads take, each so many.
pub(crate) fn turns<R: Threads + Wait + Sync>(
    rt: &R,
    alloc: Global,
    threads: u32,
    times: u32,
) -> Result<u64, AllocError>
    requires { (1 ≤ threads) × (threads ≤ 4) }
{
    let Ok((turn, seats)) = Turn::new(alloc, Total { sum: 0 }, threads) else {
        return Err(AllocError);
    };
    let shared = &turn;
    let seats = at_rest(alloc, shared, seats)?;
    let lasts = thread::map_vec(
        rt,
        seats,
        &|seat: Seat<Total>| -> u64
            requires { IsAtRest shared.now seat }
        { take_turns(rt, shared, seat, times) },
    )?;
    let mut most = 0;
    for last in lasts {
        most = last.max(most);
    }
    Ok(most)
}
