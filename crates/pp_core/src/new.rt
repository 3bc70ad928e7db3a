//! A search before its first report.
ghost use Rattle.std.specs.Prelude.{◌≡◌, ◌∷◌, [], IfOk};

use crate::Core;
use pp_space::Space;
use std::alloc::{AllocError, Global};

impl<'a, S: Space> Core<'a, S> {
    /// The root alone is live, and the value is the least one.
    pub fn new(alloc: Global, space: &'a S, root: S::Task) -> Result<Core<'a, S>, AllocError>
        ensures space { IfOk result (λ core. core.space.now ≡ space.now) }
        ensures root { IfOk result (λ core. core.root ≡ root) }
        ensures live { IfOk result (λ core. core.live.items ≡ root ∷ []) }
        ensures value { IfOk result (λ core. core.value ≡ S.bottom space.now) }
    {
        let first = space.copy_task(&root)?;
        let mut live = Vec::with_capacity(alloc, 1)?;
        live.push_reserved(first);
        let value = space.empty();
        Ok(Core {
            space,
            root,
            live,
            value,
        })
    }
}
