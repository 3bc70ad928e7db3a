//! Values that can be copied where there is memory.
ghost use Rattle.std.specs.Prelude.{◌≡◌, IfOk};

use std::alloc::AllocError;

/// A value of which a copy can be made.
pub trait Copied: Drop {
    /// A copy.
    fn copied(&self) -> Result<Self, AllocError>
        ensures { IfOk result (λ copy. copy ≡ self.now) };
}

impl Copied for u32 {
    fn copied(&self) -> Result<u32, AllocError> {
        Ok(*self)
    }
}
