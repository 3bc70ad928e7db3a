//! What the owner of a hand does with it.
ghost use Rattle.std.specs.Prelude.{◌≡◌, ◌≤◌, ◌+◌, [], true, false, ◌∷◌, ◌++◌, All, IfOk, IfErr, MatchOption, MatchResult, flat_map, length, vec_len};
ghost use Rattle.pp_deal.specs.Dealt.{AreAccounted};
ghost use Rattle.pp_deal.specs.Hands.{HeldFirst, HeldNothing, IsNew, IsPeekOf, IsSameDeque, SameHand, is_drained, left, offered, peeks_given, stolen, taken};

use crate::hand::{Hand, Left, Peek};
use crate::offered::Offered;
use crate::rule::{Gives, Offers, Takes, Total};
use crossbeam_deque::Worker;
use std::alloc::{AllocError, Global};

/// How many items a new hand has room for.
const ROOM: usize = 16;

/// As many hands as are asked for, each with a deque of its own.
pub fn hands<T: Drop>(alloc: Global, count: u32) -> Result<Vec<Hand<T>>, AllocError>
    requires { (1 ≤ count) × (count ≤ 64) }
    ensures count { IfOk result (λ hands. vec_len hands ≡ count) }
    ensures new { IfOk result (λ hands. All IsNew hands.items) }
{
    let mut all = Vec::with_capacity(alloc, count as usize)?;
    for made in 0..count {
        all.push_reserved(Hand::new(alloc)?);
    }
    Ok(all)
}

impl<T: Drop> Hand<T> {
    fn new(alloc: Global) -> Result<Hand<T>, AllocError>
        ensures { IfOk result IsNew }
    {
        let worker = Worker::fifo_as(alloc, ROOM)?;
        Ok(Hand {
            worker,
            drained: false,
        })
    }

    /// Puts the item behind the others. Where there is no memory it comes back.
    pub fn offer(&mut self, item: T) -> Result<(), Offered<T>>
        ensures hand { SameHand self.old self.new × (taken self.new ≡ taken self.old) }
        ensures offered { MatchResult result (λ _. offered self.new ≡ offered self.old ++ item ∷ []) (λ _. offered self.new ≡ offered self.old) }
        ensures refused { IfErr result (λ refused. refused.item ≡ item) }
        ensures drained { MatchResult result (λ _. is_drained self.new ≡ false) (λ _. is_drained self.new ≡ is_drained self.old) }
    {
        match self.worker.push_as::<Offers>(item) {
            Ok(()) => {
                self.drained = false;
                Ok(())
            }
            Err(item) => Err(Offered { item }),
        }
    }

    /// Takes the first item. Where there is none at a moment of the call, the hand knows from then on, until it offers
    /// again, that all it offered is gone.
    pub fn take(&mut self) -> Option<T>
        ensures hand { SameHand self.old self.new × (offered self.new ≡ offered self.old) }
        ensures taken { MatchOption result (taken self.new ≡ taken self.old) (λ item. taken self.new ≡ taken self.old ++ item ∷ []) }
        ensures found { MatchOption result (HeldNothing self.old) (λ item. HeldFirst item self.old) }
        ensures drained { MatchOption result (is_drained self.new ≡ true) (λ _. is_drained self.new ≡ false) }
    {
        match self.worker.pop_as::<Takes>() {
            Some(item) => {
                self.drained = false;
                Some(item)
            }
            None => {
                self.drained = true;
                None
            }
        }
    }

    /// Gives another thread the right to steal.
    pub fn peek(&mut self) -> Result<Peek<T>, AllocError>
        ensures items { (offered self.new ≡ offered self.old) × (taken self.new ≡ taken self.old) × (is_drained self.new ≡ is_drained self.old) }
        ensures given { MatchResult result (λ _. peeks_given self.new ≡ peeks_given self.old + 1) (λ _. peeks_given self.new ≡ peeks_given self.old) }
        ensures hand { IsSameDeque self.old self.new }
        ensures peek { IfOk result (λ peek. IsPeekOf self.new peek × (stolen peek ≡ [])) }
    {
        let stealer = self.worker.stealer()?;
        let pass = self.worker.another::<Gives>();
        Ok(Peek { stealer, pass })
    }

    /// Ends the hand, with all the peeks that it gave. What was taken and stolen is a beginning of what was offered, each
    /// item as often, and what is left is the rest, in its order.
    pub fn finish(self, mut peeks: Vec<Peek<T>>) -> Left<T>
        requires peeks { All (IsPeekOf self) peeks.items }
        requires all { length peeks.items ≡ peeks_given self }
        ensures { AreAccounted (offered self) (taken self ++ flat_map stolen peeks.items) (left result) }
    {
        let Hand {
            mut worker,
            drained: _,
        } = self;
        while let Some(peek) = peeks.pop() {
            let Peek { stealer, pass } = peek;
            drop(stealer);
            worker.absorb::<Gives>(pass);
        }
        worker.len_as::<Total>();
        Left { worker }
    }
}
