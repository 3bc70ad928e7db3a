// A reply: a status, and the bytes to be written.
ghost use Rattle.std.specs.Prelude.{◌≡◌, ◌⊎◌};
ghost use Rattle.pp_io.specs.Ends.{Rose};
ghost use Rattle.pp_run.specs.Endings.{Wrote};

use pp_io::{Sink, write_all};
use pp_language::Status;

/// A status and the bytes that go with it.
#[derive(Debug, Drop)]
pub(crate) struct Reply {
    pub status: Status,
    pub bytes: Vec<u8>,
}

/// Writes the bytes of a reply, and answers its status, or the write fault.
pub(crate) fn written<K: Sink>(sink: &mut K, status: Status, bytes: &[u8]) -> Status
    ensures wrote { Wrote status bytes.now (K.taken sink.old) (K.taken sink.new) result }
    ensures rose { (result ≡ status) ⊎ ((result ≡ Status.WriteFault) × Rose (K.faults sink.old) (K.faults sink.new)) }
{
    match write_all(sink, bytes) {
        Ok(()) => status,
        Err(_) => Status::WriteFault,
    }
}
