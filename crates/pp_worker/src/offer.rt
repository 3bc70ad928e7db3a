//! A worker offers what is left of a task.
ghost use Rattle.std.specs.Prelude.{◌≡◌, ◌++◌, OnOk};
ghost use Rattle.pp_deal.specs.Hands.{SameHand, offered, taken};
ghost use Rattle.pp_worker.specs.Turns.{offers_if};

use pp_cell::Accepted;
use pp_deal::Hand;
use std::alloc::AllocError;

/// Offers all of them, in order.
fn offer_all<T: Drop>(hand: &mut Hand<T>, mut tasks: Vec<T>) -> Result<(), AllocError>
    ensures hand { SameHand hand.old hand.new × (taken hand.new ≡ taken hand.old) }
    ensures offered { OnOk result (offered hand.new ≡ offered hand.old ++ tasks.items) }
{
    while !tasks.is_empty() {
        let Ok(()) = hand.offer(tasks.remove(0)) else {
            return Err(AllocError);
        };
    }
    Ok(())
}

/// Offers the rest of a report that counts while the search goes on.
pub(crate) fn offer_if_taken<T: Drop>(
    hand: &mut Hand<T>,
    accepted: Accepted,
    rest: Vec<T>,
) -> Result<(), AllocError>
    ensures hand { SameHand hand.old hand.new × (taken hand.new ≡ taken hand.old) }
    ensures offered { OnOk result (offered hand.new ≡ offered hand.old ++ offers_if accepted rest.items) }
{
    match accepted {
        Accepted::Taken => offer_all(hand, rest),
        Accepted::Settled => Ok(()),
        Accepted::Stale => Ok(()),
    }
}
