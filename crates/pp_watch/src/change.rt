//! A change of the store.
ghost use Rattle.std.specs.Prelude.{◌≡◌, IfOk};

use pp_row::Row;
use std::alloc::AllocError;

/// A turn that narrowed a goal: the turn's number, from 1, the goal's number, from 1, the row that was given to the
/// goal, and the store after the change.
#[derive(Debug, Drop)]
pub struct Change {
    pub turn: u64,
    pub goal: u32,
    pub given: Row,
    pub store: Row,
}

impl Change {
    /// A copy.
    pub fn copy(&self) -> Result<Change, AllocError>
        ensures { IfOk result (λ copy. copy ≡ self.now) }
    {
        Ok(Change {
            turn: self.turn,
            goal: self.goal,
            given: self.given.copy()?,
            store: self.store.copy()?,
        })
    }
}
