//! What a core shows.
ghost use Rattle.std.specs.Prelude.{◌≡◌, true, false, IfOk, IfSome, IfNone};
ghost use Rattle.pp_core.specs.Runs.{state, is_done};

use crate::Core;
use pp_space::{Settled, Space};
use std::alloc::AllocError;

impl<'a, S: Space> Core<'a, S> {
    /// Whether no task is live or the value is settled. Then the value has the outcome of the root's worth.
    pub fn is_done(&self) -> bool
        ensures done { result ≡ is_done (S.is_settled self.now.space.now) (state self.now.live.items self.now.value) }
        ensures decided { result ≡ true → S.outcome_of self.now.space.now self.now.value ≡ S.outcome_of self.now.space.now (S.worth self.now.space.now self.now.root) }
    {
        self.live.is_empty() || self.space.settled(&self.value)
    }

    /// The value with the root, once no task is live or the value is settled; None before.
    pub fn settle(&self) -> Result<Option<Settled<'a, S>>, AllocError>
        ensures none { IfOk result (λ o. IfNone o (is_done (S.is_settled self.now.space.now) (state self.now.live.items self.now.value) ≡ false)) }
        ensures some { IfOk result (λ o. IfSome o (λ s. is_done (S.is_settled self.now.space.now) (state self.now.live.items self.now.value) ≡ true)) }
        ensures space { IfOk result (λ o. IfSome o (λ s. s.space.now ≡ self.now.space.now)) }
        ensures root { IfOk result (λ o. IfSome o (λ s. s.root ≡ self.now.root)) }
        ensures value { IfOk result (λ o. IfSome o (λ s. s.value ≡ self.now.value)) }
    {
        if !self.is_done() {
            return Ok(None);
        }
        let root = self.space.copy_task(&self.root)?;
        let value = self.space.copy_of(&self.value)?;
        Ok(Some(Settled::new(self.space, root, value)))
    }
}
