// Writing all of an answer.
ghost use Rattle.std.specs.Prelude.{◌≡◌, ℕ, ◌≤◌, List, [], ◌++◌, IsOk, OnOk, OnErr};
ghost use Rattle.pp_io.specs.Ends.{Rose, Took};

use super::ends::Sink;
use thiserror::Error;

/// Why an answer was not written to its end.
#[derive(Clone, Copy, Debug, PartialEq, Eq, Error)]
pub enum WriteError {
    #[error("a write failed")]
    Fault,
}

/// Writes all of `bytes`, handing the whole rest to each write. Of no bytes it makes no write, and it
/// takes no memory.
pub fn write_all<K: Sink>(sink: &mut K, bytes: &[u8]) -> Result<(), WriteError>
    ensures count { K.faults sink.old ≤ K.faults sink.new }
    ensures all { OnOk result (Took (K.taken sink.old) (K.taken sink.new) bytes.now) }
    ensures rose { OnErr result (Rose (K.faults sink.old) (K.faults sink.new)) }
    ensures part { OnErr result ((done : List ℕ) × (rest : List ℕ)
        × (bytes.now ≡ done ++ rest) × Took (K.taken sink.old) (K.taken sink.new) done) }
    ensures none { bytes.now ≡ [] → IsOk result × (sink.new ≡ sink.old) }
{
    let mut rest = bytes;
    while !rest.is_empty() {
        match sink.write(rest) {
            Ok(0) | Err(_) => return Err(WriteError::Fault),
            Ok(n) => rest = &rest[n..],
        }
    }
    Ok(())
}
