//! The hands of workers.
ghost use Rattle.std.specs.Prelude.{◌≡◌, ◌∷◌, [], IfOk};
ghost use Rattle.pp_deal.specs.Hands.{offered};

use pp_deal::{Hand, hands};
use std::alloc::{AllocError, Global};

/// A hand that has offered nothing.
pub(crate) fn empty_hand<T: Drop>(alloc: Global) -> Result<Hand<T>, AllocError>
    ensures { IfOk result (λ hand. offered hand ≡ []) }
{
    let mut made = hands(alloc, 1)?;
    Ok(made.remove(0))
}

/// A hand that has offered the task.
pub(crate) fn hand_with<T: Drop>(alloc: Global, task: T) -> Result<Hand<T>, AllocError>
    ensures { IfOk result (λ hand. offered hand ≡ task ∷ []) }
{
    let mut hand = empty_hand(alloc)?;
    let Ok(()) = hand.offer(task) else {
        return Err(AllocError);
    };
    Ok(hand)
}
