// Ends that never fail.
ghost use Rattle.std.specs.Prelude.{◌≡◌, ◌<◌, ◌≤◌, [], length, min, take, drop, vec_len, Some, None, IfOk, unwrap_or, if◌then◌else◌, false};
ghost use Rattle.std.specs.Vec.{vec_capacity};
ghost use Rattle.pp_io.specs.Ends.{Gave, Took, ShowsEnd};
ghost use Rattle.pp_io.specs.Steady.{SteadyInput, SteadyOutput, told_after};

use super::ends::{Failed, Sink, Source};
use super::give::give;
use std::alloc::{AllocError, Global};
use std::marker::Model;

/// A source in memory that never fails.
#[derive(Debug, Drop)]
pub struct SteadySource {
    bytes: Vec<u8>,
    given: usize,
    piece: usize,
}

impl Model for SteadySource {
    ghost Value = { SteadyInput };

    ghost view = { λ s. record { left = drop s.given s.bytes.items; piece = s.piece } };

    ghost invariant = { λ s. (s.given ≤ vec_len s.bytes) × (1 ≤ s.piece) };
}

impl SteadySource {
    /// A source of `bytes` that gives at most `piece` of them in a call.
    pub fn new(bytes: Vec<u8>, piece: usize) -> SteadySource
        requires { 1 ≤ piece }
        ensures { result ≡ record { left = bytes.items; piece = piece } }
    {
        SteadySource {
            bytes,
            given: 0,
            piece,
        }
    }

    /// An equal source.
    pub fn copy(&self) -> Result<SteadySource, AllocError>
        ensures { IfOk result (λ source. source ≡ self.now) }
    {
        Ok(SteadySource {
            bytes: Vec::from_slice(*self.bytes.allocator(), &self.bytes)?,
            given: self.given,
            piece: self.piece,
        })
    }
}

impl Source for SteadySource {
    ghost left = { λ s. Some s.left };

    ghost faults = { λ _. 0 };

    fn read(&mut self, buf: &mut [u8]) -> Result<usize, Failed>
        ensures within { IfOk result (λ n. n ≤ length buf.new) }
        ensures given { IfOk result (λ n. Gave (Some self.old.left) (Some self.new.left) (take n buf.new)) }
        ensures end { IfOk result (λ n. 0 < length buf.new → ShowsEnd (Some self.old.left) n) }

        ensures number { result ≡ Ok (min self.old.piece (min (length self.old.left) (length buf.new))) }
        ensures left { IfOk result (λ n. self.new ≡ record self.old { left = drop n self.old.left }) }
    {
        let n = give(&self.bytes[self.given..], self.piece, buf);
        self.given += n;
        Ok(n)
    }
}

/// A sink in memory that never fails and takes each piece whole.
#[derive(Debug, Drop)]
pub struct SteadySink {
    taken: Vec<u8>,
    room: usize,
    is_telling: bool,
}

impl Model for SteadySink {
    ghost Value = { SteadyOutput };

    ghost view = { λ s. record { told = if s.is_telling then Some s.taken.items else None; room = s.room } };

    ghost invariant = { λ s. (vec_len s.taken ≤ s.room) × (s.room ≤ vec_capacity s.taken) × (s.is_telling ≡ false → s.taken.items ≡ []) };
}

impl SteadySink {
    /// An empty sink that tells its bytes while all of them fit `room`.
    pub fn new(alloc: Global, room: usize) -> Result<SteadySink, AllocError>
        ensures { IfOk result (λ sink. sink ≡ record { told = Some []; room = room }) }
    {
        Ok(SteadySink {
            taken: Vec::with_capacity(alloc, room)?,
            room,
            is_telling: true,
        })
    }

    /// An equal sink.
    pub fn copy(&self) -> Result<SteadySink, AllocError>
        ensures { IfOk result (λ sink. sink ≡ self.now) }
    {
        let mut taken = Vec::with_capacity(*self.taken.allocator(), self.room)?;
        taken.extend_from_slice(&self.taken)?;
        Ok(SteadySink {
            taken,
            room: self.room,
            is_telling: self.is_telling,
        })
    }

    /// All bytes taken so far, as long as the sink tells them, and no byte from then on.
    pub fn bytes(&self) -> &[u8]
        ensures { result.now ≡ unwrap_or self.now.told [] }
    {
        &self.taken
    }
}

impl Sink for SteadySink {
    ghost taken = { λ s. s.told };

    ghost faults = { λ _. 0 };

    fn write(&mut self, bytes: &[u8]) -> Result<usize, Failed>
        ensures took { IfOk result (λ n. Took self.old.told self.new.told (take n bytes.now)) }

        ensures whole { result ≡ Ok (length bytes.now) }
        ensures told { self.new ≡ record self.old { told = told_after self.old.room self.old.told bytes.now } }
    {
        if self.is_telling && bytes.len() <= self.room - self.taken.len() {
            self.taken.extend_from_slice(bytes).unwrap();
        } else {
            self.is_telling = false;
            self.taken.clear();
        }
        Ok(bytes.len())
    }
}
