//! Why a text writes no program.
ghost use Rattle.std.specs.Prelude.{◌≡◌};
ghost use Rattle.pp_read.specs.declared.fault.ReadFault.TheVariants.{Memory};

use pp_language::Which;
use std::alloc::AllocError;
use thiserror::Error;

/// Why a text writes no program: its first fault, by the number of a sentence, the first limit that it passes, or want
/// of memory.
#[derive(Clone, Copy, Debug, PartialEq, Eq, Error)]
pub enum ReadFault {
    #[error("a fault in sentence {0}")]
    Syntax(u32),
    #[error("a limit is passed: {0:?}")]
    Limit(Which),
    #[error("out of memory")]
    Memory,
}

impl From<AllocError> for ReadFault {
    ghost from_gives = { λ _ fault. fault ≡ Memory };

    fn from(_error: AllocError) -> ReadFault {
        ReadFault::Memory
    }
}
