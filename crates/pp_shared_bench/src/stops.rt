//! Loads and raises of a stop word.
ghost use Rattle.std.specs.Prelude.{◌≤◌};
ghost use Rattle.pp_stop.specs.Seats.{IsNew, IsSeatOf};

use pp_stop::{Stop, StopSeat, Up};
use std::alloc::{AllocError, Global};
use std::thread;
use std::thread::Threads;

/// So many loads; the result is how many of them saw no bit.
fn load_often(stop: &Stop, mut seat: StopSeat, times: u32) -> u64
    requires { IsSeatOf stop.now seat }
{
    let mut none = 0u64;
    for _ in 0..times {
        if stop.is_up(&mut seat) == Up::No {
            none = none.wrapping_add(1);
        }
    }
    none
}

/// So many raises; the result is how many there were.
fn raise_often(stop: &Stop, mut seat: StopSeat, times: u32) -> u64
    requires { IsSeatOf stop.now seat }
{
    let mut raises = 0u64;
    for _ in 0..times {
        stop.raise_dry(&mut seat);
        raises = raises.wrapping_add(1);
    }
    raises
}

/// What threads do to a stop word.
#[derive(Clone, Copy, Debug)]
pub enum Act {
    Load,
    Raise,
}

/// What one of so many threads counts, each of which loads or raises the stop word so many times.
pub(crate) fn counted<R: Threads + Sync>(
    rt: &R,
    alloc: Global,
    threads: u32,
    times: u32,
    act: Act,
) -> Result<u64, AllocError>
    requires { (1 ≤ threads) × (threads ≤ 4) }
{
    let (stop, seats) = Stop::new(alloc, threads)?;
    let shared = &stop;
    let mut counts = thread::map_vec(
        rt,
        seats,
        &|seat: StopSeat| -> u64
            requires { IsNew shared.now seat }
        {
            match act {
                Act::Load => load_often(shared, seat, times),
                Act::Raise => raise_often(shared, seat, times),
            }
        },
    )?;
    Ok(counts.pop().unwrap_or(0))
}
