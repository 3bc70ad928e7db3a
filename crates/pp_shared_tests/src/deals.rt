//! A hand and a peek at it, in one thread and in two.
ghost use Rattle.std.specs.Prelude.{◌≡◌, ◌+◌, IfSome};
ghost use Rattle.pp_deal.specs.Hands.{IsPeekOf, IsSameDeque, IsSamePeek, peeks_given};

use pp_deal::{Hand, Left, Peek, Stolen, hands};
use std::alloc::Global;
use std::sync::Wait;
use std::sync::atomic::{AtomicU64, Ordering};
use std::test::Fail;
use std::thread;
use std::thread::Threads;

// How many items are offered.
const ITEMS: u64 = 100_000;

// A hand, and the one peek that it gave.
fn hand_and_peek(alloc: Global) -> Option<(Hand<u64>, Peek<u64>)>
    ensures { IfSome result (λ t. IsPeekOf t.0 t.1 × (peeks_given t.0 ≡ 1)) }
{
    let mut all = hands(alloc, 1).ok()?;
    let mut hand = all.pop()?;
    let peek = hand.peek().ok()?;
    Some((hand, peek))
}

// What is left of the hand.
fn finished(alloc: Global, hand: Hand<u64>, peek: Peek<u64>) -> Option<Left<u64>>
    requires { IsPeekOf hand peek × (peeks_given hand ≡ 1) }
{
    let mut peeks = Vec::with_capacity(alloc, 1).ok()?;
    peeks.push_reserved(peek);
    Some(hand.finish(peeks))
}

// 1, 2 and 3 are offered; what is stolen, what the hand takes, and what is left.
fn three_offers(alloc: Global) -> Option<(bool, Option<u64>, Left<u64>)> {
    let (mut hand, mut peek) = hand_and_peek(alloc)?;
    let is_empty = peek.steal() == Stolen::Empty;
    hand.offer(1).ok()?;
    hand.offer(2).ok()?;
    hand.offer(3).ok()?;
    let is_first = peek.steal() == Stolen::Item(1);
    let second = hand.take();
    Some((is_empty && is_first, second, finished(alloc, hand, peek)?))
}

#[test]
fn the_first_item_is_stolen_or_taken(rt: HostRuntime) -> Result<(), Fail> {
    let Some((is_stolen, second, mut left)) = three_offers(rt.alloc()) else {
        panic!(rt; "no memory")
    };
    assert!(rt; is_stolen && second == Some(2));
    let third = left.take();
    let none = left.take();
    assert!(rt; third == Some(3) && none.is_none());
    Ok(())
}

// How many items, and their sum.
#[derive(Clone, Copy)]
struct Tally {
    count: u64,
    sum: u64,
}

fn with(tally: Tally, item: u64) -> Tally {
    Tally {
        count: tally.count.wrapping_add(1),
        sum: tally.sum.wrapping_add(item),
    }
}

// Offers one item, and takes one after each third.
fn offer_one(hand: &mut Hand<u64>, item: u64, tally: Tally) -> Tally
    ensures { IsSameDeque hand.old hand.new × (peeks_given hand.new ≡ peeks_given hand.old) }
{
    if let Err(refused) = hand.offer(item) {
        return with(tally, refused.item);
    }
    if item % 3 != 0 {
        return tally;
    }
    match hand.take() {
        Some(item) => with(tally, item),
        None => tally,
    }
}

fn offer_all(mut hand: Hand<u64>, done: &AtomicU64) -> (Hand<u64>, Tally)
    ensures { IsSameDeque hand result.0 × (peeks_given result.0 ≡ peeks_given hand) }
{
    let mut tally = Tally { count: 0, sum: 0 };
    for item in 0..ITEMS {
        tally = offer_one(&mut hand, item, tally);
    }
    done.store(1, Ordering::SeqCst);
    (hand, tally)
}

// Steals until nothing is found after the last offer.
fn steal_all<R: Wait>(rt: &R, mut peek: Peek<u64>, done: &AtomicU64) -> (Peek<u64>, Tally)
    ensures { IsSamePeek peek result.0 }
{
    let mut tally = Tally { count: 0, sum: 0 };
    for _ in rt.forever() {
        match peek.steal() {
            Stolen::Item(item) => tally = with(tally, item),
            Stolen::Empty => {
                if done.load(Ordering::SeqCst) == 1 {
                    break;
                }
                thread::yield_now();
            }
            Stolen::Again => {}
        }
    }
    (peek, tally)
}

fn take_rest(mut left: Left<u64>, mut tally: Tally) -> Tally {
    while let Some(item) = left.take() {
        tally = with(tally, item);
    }
    tally
}

// All that two threads and the end found of the items that one of them offered.
fn dealt<R: Threads + Wait + Sync>(rt: &R, alloc: Global) -> Option<Tally> {
    let (hand, peek) = hand_and_peek(alloc)?;
    let done = AtomicU64::new(0);
    let (offered, stolen) = both(rt, hand, peek, &done);
    let (hand, taken) = offered;
    let (peek, robbed) = stolen;
    let left = finished(alloc, hand, peek)?;
    let found = take_rest(left, taken);
    Some(Tally {
        count: found.count.wrapping_add(robbed.count),
        sum: found.sum.wrapping_add(robbed.sum),
    })
}

fn both<R: Threads + Wait + Sync>(
    rt: &R,
    hand: Hand<u64>,
    peek: Peek<u64>,
    done: &AtomicU64,
) -> ((Hand<u64>, Tally), (Peek<u64>, Tally))
    ensures hand { IsSameDeque hand result.0.0 × (peeks_given result.0.0 ≡ peeks_given hand) }
    ensures peek { IsSamePeek peek result.1.0 }
{
    thread::join(
        rt,
        move || -> (Hand<u64>, Tally)
            ensures { IsSameDeque hand result.0 × (peeks_given result.0 ≡ peeks_given hand) }
        { offer_all(hand, done) },
        move || -> (Peek<u64>, Tally)
            ensures { IsSamePeek peek result.0 }
        { steal_all(rt, peek, done) },
    )
}

#[test]
fn each_item_is_found_once(rt: HostRuntime) -> Result<(), Fail> {
    let Some(found) = dealt(&rt, rt.alloc()) else {
        panic!(rt; "no memory")
    };
    assert!(rt; found.count == ITEMS && found.sum == ITEMS * (ITEMS - 1) / 2);
    Ok(())
}
