//! What other threads do with a hand.
ghost use Rattle.std.specs.Prelude.{◌≡◌, ◌⊎◌, ◌<◌, [], ◌∷◌, ◌++◌};
ghost use Rattle.pp_deal.specs.Hands.{IsSamePeek, SawFirst, SawNothing, known_gone, stolen};
ghost use Rattle.pp_deal.specs.Stolen.{MatchStolen};

use crate::hand::Peek;
use crate::rule::Takes;
use crate::stolen::Stolen;
use crossbeam_deque::Steal;

impl<T: Drop> Peek<T> {
    /// Steals the first item. `Empty` comes only where there was none at a moment of the call, and `Again` only so or
    /// where the peek learnt that more items are gone.
    pub fn steal(&mut self) -> Stolen<T>
        ensures peek { IsSamePeek self.old self.new }
        ensures stolen { MatchStolen result (stolen self.new ≡ stolen self.old) (stolen self.new ≡ stolen self.old) (λ item. stolen self.new ≡ stolen self.old ++ item ∷ []) }
        ensures found { MatchStolen result (SawNothing self.old) ((known_gone self.old < known_gone self.new) ⊎ SawNothing self.old) (λ item. SawFirst item self.old) }
    {
        match self.stealer.steal_as::<Takes>(&mut self.pass) {
            Steal::Success(item) => Stolen::Item(item),
            Steal::Empty => Stolen::Empty,
            Steal::Retry => Stolen::Again,
        }
    }
}
