//! A worker takes a task of its own, or steals one.
ghost use Rattle.std.specs.Prelude.{◌≡◌, ◌∷◌, ◌++◌, [], true, IfNone, IfSome, MatchOption};
ghost use Rattle.pp_deal.specs.Hands.{IsSamePeek, SameHand, is_drained, offered, stolen, taken};
ghost use Rattle.pp_worker.specs.Peeks.{AreSamePeeks, StoleNothing, StoleOne, WasTaken};

use pp_deal::{Hand, Peek, Stolen};

/// The first task of a deque; none where the steal found none, or another was faster.
fn steal_from<T: Drop>(peek: &mut Peek<T>) -> Option<T>
    ensures peek { IsSamePeek peek.old peek.new }
    ensures stolen { MatchOption result (stolen peek.new ≡ stolen peek.old) (λ task. stolen peek.new ≡ stolen peek.old ++ task ∷ []) }
{
    match peek.steal() {
        Stolen::Item(task) => Some(task),
        Stolen::Empty => None,
        Stolen::Again => None,
    }
}

/// The first task that a peek steals, in the order of the peeks.
fn steal<T: Drop>(peeks: &mut Vec<Peek<T>>) -> Option<T>
    ensures peeks { AreSamePeeks peeks.old.items peeks.new.items }
    ensures stolen { MatchOption result (StoleNothing peeks.old.items peeks.new.items) (λ task. StoleOne task peeks.old.items peeks.new.items) }
{
    for i in 0..peeks.len() {
        if let Some(task) = steal_from(&mut peeks[i]) {
            return Some(task);
        }
    }
    None
}

/// A task, and whether it was in the own hand.
#[derive(Drop)]
pub(crate) struct Next<T> {
    pub(crate) task: T,
    pub(crate) is_own: bool,
}

/// The hand's first task, or one that is stolen.
pub(crate) fn next_task<T: Drop>(hand: &mut Hand<T>, peeks: &mut Vec<Peek<T>>) -> Option<Next<T>>
    ensures hand { SameHand hand.old hand.new × (offered hand.new ≡ offered hand.old) }
    ensures peeks { AreSamePeeks peeks.old.items peeks.new.items }
    ensures none { IfNone result ((taken hand.new ≡ taken hand.old) × (is_drained hand.new ≡ true) × StoleNothing peeks.old.items peeks.new.items) }
    ensures taken { IfSome result (λ next. WasTaken next.task hand.old hand.new peeks.old.items peeks.new.items) }
{
    if let Some(task) = hand.take() {
        return Some(Next { task, is_own: true });
    }
    let task = steal(peeks)?;
    Some(Next {
        task,
        is_own: false,
    })
}
