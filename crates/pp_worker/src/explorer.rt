//! Spaces whose tasks can be searched piece by piece.
ghost use Rattle.std.specs.Prelude.{◌≡◌, ◌≢◌, ◌≤◌, ◌+◌, ◌∷◌, [], Bool, true, false, All, IfOk};
ghost use Rattle.pp_core.specs.Worths.{with_worths};
ghost use Rattle.pp_stop.specs.Seats.{IsSeatOf, StillSeen, has_seen, late, loads, saw_dry, saw_settled};
ghost use Rattle.pp_stop.specs.Words.{up_of};
ghost use Rattle.pp_stop.specs.declared.up.Up.TheVariants.{No};

use crate::found::FoundOf;
use pp_space::Space;
use pp_stop::{Stop, StopSeat};
use std::alloc::{AllocError, Global};

/// A space whose tasks a worker searches, a budget at a time.
pub trait Explorer: Space {
    /// What one worker keeps between its searches, so that a search which goes on where the last one stopped need not
    /// find its place again.
    type Walker: Drop + Send;

    /// Which walkers are of this space.
    ghost belongs: { Self → Self.Walker → Type 0 };

    /// Whether the first task comes later than the second.
    ghost is_later: { Self.Task → Self.Task → Bool };

    /// What a worker begins with.
    fn walker(&self, alloc: Global) -> Result<Self::Walker, AllocError>
        ensures { IfOk result (λ walker. ∥ belongs self.now walker ∥₁) };

    /// Searches a task for a while, under what is known already. The stop word is loaded before each reduction, and no
    /// reduction follows a load that saw it up. Of the task what was found, joined with the worths of the rest, is worth
    /// the same under what is known. Where the budget ended the search, each task of the rest is later than the task.
    fn search(
        &self,
        walker: &mut Self::Walker,
        task: &Self::Task,
        under: &Self::Value,
        budget: u32,
        stop: &Stop,
        seat: &mut StopSeat,
    ) -> Result<FoundOf<Self::Task, Self::Value>, AllocError>
        requires walker { ∥ belongs self.now walker.old ∥₁ }
        requires under { ∥ Self.fits self.now under.now ∥₁ }
        requires budget { 1 ≤ budget }
        requires seat { IsSeatOf stop.now seat.old }
        ensures walker { ∥ belongs self.now walker.new ∥₁ }
        ensures seat { IsSeatOf stop.now seat.new }
        ensures seen { StillSeen seat.old seat.new }
        ensures late { has_seen seat.old ≡ false → late seat.new ≡ late seat.old }
        ensures fits { IfOk result (λ found. ∥ Self.fits self.now found.value ∥₁) }
        ensures worth { IfOk result (λ found. Self.joined self.now (Self.worth self.now task.now) under.now ≡ Self.joined self.now (with_worths (Self.worth self.now) (Self.joined self.now) found.value found.rest) under.now) }
        ensures up { IfOk result (λ found. found.up ≡ up_of (saw_settled seat.new) (saw_dry seat.new)) }
        ensures stopped { has_seen seat.old ≡ true → IfOk result (λ found. (loads seat.new ≡ loads seat.old + 1) × (found.value ≡ Self.bottom self.now) × (found.rest ≡ task.now ∷ [])) }
        ensures budget { IfOk result (λ found. found.rest ≢ [] → found.up ≡ No → loads seat.old + budget ≤ loads seat.new) }
        ensures later { IfOk result (λ found. found.up ≡ No → All (λ t. is_later t task.now ≡ true) found.rest) };

    ghost later_irreflexive: { (t : Self.Task) → is_later t t ≡ false };

    ghost later_transitive: { (t u v : Self.Task) → is_later t u ≡ true → is_later u v ≡ true → is_later t v ≡ true };
}
