//! A value that is known to have the outcome of a task.
ghost use Rattle.std.specs.Prelude.{◌≡◌, IfOk};

use crate::Space;
use std::alloc::AllocError;
use std::marker::PhantomData;

/// The outcome of `value` is the outcome of the worth of `root`, in this space. The type keeps that, so whoever
/// holds one may tell others that the search of `root` is decided.
#[derive(Drop)]
pub struct Settled<'a, S: Space> {
    pub space: &'a S,
    pub root: S::Task,
    pub value: S::Value,
    outcome: PhantomData<S::Outcome>,
    pub ghost fits: { ∥ S.fits space.now value ∥₁ },
    pub ghost decided: { S.outcome_of space.now value ≡ S.outcome_of space.now (S.worth space.now root) },
}

impl<'a, S: Space> Settled<'a, S> {
    /// A value whose outcome was shown to be that of the root.
    pub fn new(space: &'a S, root: S::Task, value: S::Value) -> Settled<'a, S>
        requires fits { ∥ S.fits space.now value ∥₁ }
        requires decided { S.outcome_of space.now value ≡ S.outcome_of space.now (S.worth space.now root) }
        ensures space { result.space.now ≡ space.now }
        ensures root { result.root ≡ root }
        ensures value { result.value ≡ value }
    {
        Settled {
            space,
            root,
            value,
            outcome: PhantomData,
        }
    }

    /// The outcome of the root's worth.
    pub fn outcome(&self) -> Result<S::Outcome, AllocError>
        ensures { IfOk result (λ outcome. outcome ≡ S.outcome_of self.now.space.now (S.worth self.now.space.now self.now.root)) }
    {
        self.space.outcome(&self.value)
    }
}
