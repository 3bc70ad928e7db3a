//! What is left of a hand is taken.
ghost use Rattle.std.specs.Prelude.{◌≡◌, [], ◌∷◌, MatchOption};
ghost use Rattle.pp_deal.specs.Hands.{left};

use crate::hand::Left;
use crate::rule::TakesLeft;

impl<T: Drop> Left<T> {
    /// The first item that is left; `None` exactly where nothing is.
    pub fn take(&mut self) -> Option<T>
        ensures { MatchOption result ((left self.old ≡ []) × (left self.new ≡ [])) (λ item. left self.old ≡ item ∷ left self.new) }
    {
        self.worker.pop_as::<TakesLeft>()
    }
}
