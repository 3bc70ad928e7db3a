//! A space of one value and one task.
ghost use Rattle.std.specs.Prelude.{true, refl};

use pp_space::{Lattice, Space};
use std::alloc::AllocError;

#[derive(Drop)]
pub struct OneValue;

impl Lattice for OneValue {
    type Value = ();

    type Outcome = ();

    ghost fits = { λ _ _. Unit {0} };

    ghost bottom = { λ _. tt };

    ghost joined = { λ _ _ _. tt };

    ghost is_settled = { λ _ _. true };

    ghost outcome_of = { λ _ _. tt };

    fn empty(&self) {}

    fn copy_of(&self, _a: &()) -> Result<(), AllocError> {
        Ok(())
    }

    fn join(&self, _a: &(), _b: &()) -> Result<(), AllocError> {
        Ok(())
    }

    fn below(&self, _a: &(), _b: &()) -> Result<bool, AllocError> {
        Ok(true)
    }

    fn settled(&self, _a: &()) -> bool {
        true
    }

    fn outcome(&self, _a: &()) -> Result<(), AllocError> {
        Ok(())
    }

    ghost bottom_fits = { λ _. ∣ tt ∣₁ };

    ghost joined_fits = { λ _ _ _ _ _. ∣ tt ∣₁ };

    ghost unit = { λ _ _ _. refl };

    ghost idempotent = { λ _ _ _. refl };

    ghost commutative = { λ _ _ _ _ _. refl };

    ghost associative = { λ _ _ _ _ _ _ _. refl };

    ghost settled_stays = { λ _ _ _ _ _ _ _. (refl, refl) };
}

impl Space for OneValue {
    type Task = ();

    ghost worth = { λ _ _. tt };

    ghost are_same = { λ _ _. true };

    fn copy_task(&self, _a: &()) -> Result<(), AllocError> {
        Ok(())
    }

    fn same(&self, _a: &(), _b: &()) -> bool {
        true
    }

    ghost worth_fits = { λ _ _. ∣ tt ∣₁ };

    ghost same_as_itself = { λ _. refl };

    ghost same_worth = { λ _ _ _ _. refl };
}
