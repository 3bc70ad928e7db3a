//! Offers, takes and steals at one hand.
ghost use Rattle.std.specs.Prelude.{◌≡◌, ◌≤◌, IfOk};

use pp_deal::{Hand, Peek, Stolen, hands};
use std::alloc::{AllocError, Global};
use std::thread;
use std::thread::Threads;

fn one_hand(alloc: Global) -> Result<Hand<u64>, AllocError> {
    hands(alloc, 1)?.pop().ok_or(AllocError)
}

/// So many peeks at the hand.
fn peeks(alloc: Global, hand: &mut Hand<u64>, count: u32) -> Result<Vec<Peek<u64>>, AllocError> {
    let mut all = Vec::new(alloc);
    for _ in 0..count {
        all.push(hand.peek()?)?;
    }
    Ok(all)
}

/// Offers and takes so often; the result is how often both were done.
fn offer_and_take(mut hand: Hand<u64>, times: u32) -> Result<u32, AllocError>
    ensures { IfOk result (λ done. done ≡ times) }
{
    for item in 0..times {
        hand.offer(u64::from(item)).map_err(|_| AllocError)?;
        hand.take();
    }
    Ok(times)
}

/// Tries so many steals.
fn steal_often(mut peek: Peek<u64>, times: u32) -> u64 {
    let mut stolen = 0u64;
    for _ in 0..times {
        if let Stolen::Item(_) = peek.steal() {
            stolen = stolen.wrapping_add(1);
        }
    }
    stolen
}

/// Steals until nothing is there.
fn steal_out(mut peek: Peek<u64>) -> u64 {
    let mut stolen = 0u64;
    for _ in 0..u64::MAX {
        match peek.steal() {
            Stolen::Item(_) => stolen = stolen.wrapping_add(1),
            Stolen::Empty => break,
            Stolen::Again => {}
        }
    }
    stolen
}

/// How often one thread offers and takes, while the others steal from it.
pub fn offers<R: Threads + Sync>(
    rt: &R,
    alloc: Global,
    threads: u32,
    times: u32,
) -> Result<u32, AllocError>
    requires { 1 ≤ threads }
    ensures { IfOk result (λ done. done ≡ times) }
{
    let mut hand = one_hand(alloc)?;
    let peeks = peeks(alloc, &mut hand, threads - 1)?;
    let (done, stolen) = thread::join(
        rt,
        move || -> Result<u32, AllocError>
            ensures { IfOk result (λ done. done ≡ times) }
        { offer_and_take(hand, times) },
        move || thread::map_vec(rt, peeks, &|peek: Peek<u64>| steal_often(peek, times)),
    );
    stolen?;
    done
}

/// Offers so many items; the result is how many there were.
fn fill(hand: &mut Hand<u64>, times: u32) -> Result<u32, AllocError>
    ensures { IfOk result (λ offered. offered ≡ times) }
{
    for item in 0..times {
        hand.offer(u64::from(item)).map_err(|_| AllocError)?;
    }
    Ok(times)
}

/// How many items are offered to a hand that nobody takes from.
pub fn fills(alloc: Global, times: u32) -> Result<u32, AllocError>
    ensures { IfOk result (λ offered. offered ≡ times) }
{
    let mut hand = one_hand(alloc)?;
    fill(&mut hand, times)
}

/// How many items so many threads steal from a hand that has so many.
pub(crate) fn steals<R: Threads + Sync>(
    rt: &R,
    alloc: Global,
    threads: u32,
    times: u32,
) -> Result<u64, AllocError> {
    let mut hand = one_hand(alloc)?;
    fill(&mut hand, times)?;
    let peeks = peeks(alloc, &mut hand, threads)?;
    let counts = thread::map_vec(rt, peeks, &|peek: Peek<u64>| steal_out(peek))?;
    let mut all = 0u64;
    for count in counts {
        all = all.wrapping_add(count);
    }
    Ok(all)
}
