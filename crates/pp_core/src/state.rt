//! The state of a search: the tasks that are live, and the value so far.
ghost use Rattle.std.specs.Prelude.{◌≡◌};
ghost use Rattle.pp_core.specs.Worths.{with_worths};

use pp_space::Space;

/// The root task, the tasks whose worth isn't in the value yet, and the value. The type keeps that the value joined
/// with the worths of the live tasks is the worth of the root.
#[derive(Drop)]
pub struct Core<'a, S: Space> {
    pub space: &'a S,
    pub root: S::Task,
    pub live: Vec<S::Task>,
    pub value: S::Value,
    pub ghost fits: { ∥ S.fits space.now value ∥₁ },
    pub ghost whole: { with_worths (S.worth space.now) (S.joined space.now) value live.items ≡ S.worth space.now root },
}
