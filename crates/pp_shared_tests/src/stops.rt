//! The stop word, loaded and raised by two threads.
ghost use Rattle.std.specs.Prelude.{◌≡◌, Some, IfSome};
ghost use Rattle.pp_stop.specs.Seats.{IsSeatOf};

use crate::one_value::OneValue;
use pp_space::Settled;
use pp_stop::{Stop, StopSeat, Up};
use std::alloc::Global;
use std::sync::Wait;
use std::test::Fail;
use std::thread;
use std::thread::Threads;

// A stop word and two seats.
fn two_seats(alloc: Global) -> Option<(Stop, StopSeat, StopSeat)>
    ensures { IfSome result (λ t. IsSeatOf t.0 t.1 × IsSeatOf t.0 t.2) }
{
    let (stop, mut seats) = Stop::new(alloc, 2).ok()?;
    let two = seats.pop()?;
    let one = seats.pop()?;
    Some((stop, one, two))
}

// What one seat's loads answer, before and after the other raises each bit.
fn loads_between_raises(stop: &Stop, one: &mut StopSeat, two: &mut StopSeat) -> [Up; 3]
    requires { IsSeatOf stop.now one.old × IsSeatOf stop.now two.old }
{
    let space = OneValue;
    let settled = Settled::new(&space, (), ());
    let before = stop.is_up(one);
    stop.raise_dry(two);
    let dry = stop.is_up(one);
    stop.raise_settled(two, &settled);
    [before, dry, stop.is_up(one)]
}

#[test]
fn settled_is_said_before_dry(rt: HostRuntime) -> Result<(), Fail> {
    let Some((stop, mut one, mut two)) = two_seats(rt.alloc()) else {
        panic!(rt; "no memory")
    };
    let seen = loads_between_raises(&stop, &mut one, &mut two);
    assert!(rt; seen == [Up::No, Up::Dry, Up::Settled]);
    Ok(())
}

// Loads until a bit is seen.
fn first_up<R: Wait>(rt: &R, stop: &Stop, mut seat: StopSeat) -> Up
    requires { IsSeatOf stop.now seat }
{
    for _ in rt.forever() {
        let up = stop.is_up(&mut seat);
        if up != Up::No {
            return up;
        }
        thread::yield_now();
    }
    unreachable!()
}

fn raise(stop: &Stop, mut seat: StopSeat)
    requires { IsSeatOf stop.now seat }
{
    stop.raise_dry(&mut seat);
}

// What one thread sees at last, while another raises the dry bit.
fn seen_elsewhere<R: Threads + Wait + Sync>(rt: &R, stop: &Stop, one: StopSeat, two: StopSeat) -> Up
    requires { IsSeatOf stop.now one × IsSeatOf stop.now two }
{
    let (up, _) = thread::join(
        rt,
        move || -> Up
            requires { IsSeatOf stop.now one }
        { first_up(rt, stop, one) },
        move || -> ()
            requires { IsSeatOf stop.now two }
        { raise(stop, two) },
    );
    up
}

#[test]
fn a_raise_is_seen_by_another_thread(rt: HostRuntime) -> Result<(), Fail> {
    let Some((stop, one, two)) = two_seats(rt.alloc()) else {
        panic!(rt; "no memory")
    };
    assert!(rt; seen_elsewhere(&rt, &stop, one, two) == Up::Dry);
    Ok(())
}
