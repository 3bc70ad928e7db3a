//! Tasks with a worth.
ghost use Rattle.std.specs.Prelude.{◌≡◌, Bool, true, IfOk};

use crate::Lattice;
use std::alloc::AllocError;

/// A lattice with tasks, each of which is worth a value: what would be found if the whole task was searched.
pub trait Space: Lattice {
    /// A piece of work.
    type Task: Drop + Send + Sync;

    ghost worth: { Self → Self.Task → Self.Value };

    ghost are_same: { Self.Task → Self.Task → Bool };

    /// A copy.
    fn copy_task(&self, a: &Self::Task) -> Result<Self::Task, AllocError>
        ensures { IfOk result (λ copy. copy ≡ a.now) };

    /// Whether two tasks are the same. Tasks that are the same are worth the same.
    fn same(&self, a: &Self::Task, b: &Self::Task) -> bool
        ensures { result ≡ are_same a.now b.now };

    ghost worth_fits: { (s : Self) (t : Self.Task) → ∥ Self.fits s (worth s t) ∥₁ };

    ghost same_as_itself: { (t : Self.Task) → are_same t t ≡ true };

    ghost same_worth: { (s : Self) (t u : Self.Task) → are_same t u ≡ true → worth s t ≡ worth s u };
}
