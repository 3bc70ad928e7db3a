// Ends in memory, of which a test says which calls fail.
ghost use Rattle.std.specs.Prelude.{◌≡◌, ◌↔◌, ◌<◌, ◌≤◌, [], ◌++◌, length, min, take, drop, vec_len, Some, IfOk, OnErr, IsErr};
ghost use Rattle.pp_io.specs.Ends.{Rose, Gave, Took, ShowsEnd, IsRefused};
ghost use Rattle.pp_io.specs.Memory.{MemoryEnd, IsNextFailing, FailedOnly, Left};

use super::calls::Calls;
use super::ends::{Failed, Sink, Source};
use super::give::give;
use std::alloc::{AllocError, Global};
use std::marker::Model;

/// A source in memory of which chosen calls fail.
#[derive(Debug, Drop)]
pub struct MemorySource {
    bytes: Vec<u8>,
    given: usize,
    piece: usize,
    calls: Calls,
}

impl Model for MemorySource {
    ghost Value = { MemoryEnd };

    ghost view = { λ s. record { bytes = drop s.given s.bytes.items; piece = s.piece; calls = s.calls } };

    ghost invariant = { λ s. (s.given ≤ vec_len s.bytes) × (1 ≤ s.piece) };
}

impl MemorySource {
    /// A source of `bytes` that gives at most `piece` of them in a call. The calls whose numbers,
    /// from 1, are in `failing` fail.
    pub fn new(bytes: Vec<u8>, piece: usize, failing: Vec<u64>) -> MemorySource
        requires { 1 ≤ piece }
        ensures { result ≡ record {
          bytes = bytes.items;
          piece = piece;
          calls = record { failing = failing.items; made = 0; faults = 0 };
        } }
    {
        MemorySource {
            bytes,
            given: 0,
            piece,
            calls: Calls::new(failing),
        }
    }

    /// An equal source.
    pub fn copy(&self) -> Result<MemorySource, AllocError>
        ensures { IfOk result (λ source. source ≡ self.now) }
    {
        Ok(MemorySource {
            bytes: Vec::from_slice(*self.bytes.allocator(), &self.bytes)?,
            given: self.given,
            piece: self.piece,
            calls: self.calls.copy()?,
        })
    }
}

impl Source for MemorySource {
    ghost left = { λ s. Some s.bytes };

    ghost faults = { λ s. s.calls.faults };

    fn read(&mut self, buf: &mut [u8]) -> Result<usize, Failed>
        ensures count { self.old.calls.faults ≤ self.new.calls.faults }
        ensures within { IfOk result (λ n. n ≤ length buf.new) }
        ensures given { IfOk result (λ n. Gave (Some self.old.bytes) (Some self.new.bytes) (take n buf.new)) }
        ensures end { IfOk result (λ n. 0 < length buf.new → ShowsEnd (Some self.old.bytes) n) }

        ensures fails { IsErr result ↔ IsNextFailing self.old.calls }
        ensures failed { OnErr result (FailedOnly self.old self.new) }
        ensures number { IfOk result (λ n. n ≡ min self.old.piece (min (length self.old.bytes) (length buf.new))) }
        ensures left { IfOk result (λ n. Left self.old self.new (drop n self.old.bytes)) }
    {
        if self.calls.is_next_failing() {
            return Err(self.calls.fail());
        }
        self.calls.count();
        let n = give(&self.bytes[self.given..], self.piece, buf);
        self.given += n;
        Ok(n)
    }
}

/// A sink in memory of which chosen calls fail.
#[derive(Debug, Drop)]
pub struct MemorySink {
    taken: Vec<u8>,
    piece: usize,
    calls: Calls,
}

impl Model for MemorySink {
    ghost Value = { MemoryEnd };

    ghost view = { λ s. record { bytes = s.taken.items; piece = s.piece; calls = s.calls } };

    ghost invariant = { λ s. 1 ≤ s.piece };
}

impl MemorySink {
    /// An empty sink that takes at most `piece` bytes in a call. The calls whose numbers, from 1,
    /// are in `failing` fail, and so does a call for whose bytes there is no memory.
    pub fn new(alloc: Global, piece: usize, failing: Vec<u64>) -> MemorySink
        requires { 1 ≤ piece }
        ensures { result ≡ record {
          bytes = [];
          piece = piece;
          calls = record { failing = failing.items; made = 0; faults = 0 };
        } }
    {
        MemorySink {
            taken: Vec::new(alloc),
            piece,
            calls: Calls::new(failing),
        }
    }

    /// An equal sink.
    pub fn copy(&self) -> Result<MemorySink, AllocError>
        ensures { IfOk result (λ sink. sink ≡ self.now) }
    {
        Ok(MemorySink {
            taken: Vec::from_slice(*self.taken.allocator(), &self.taken)?,
            piece: self.piece,
            calls: self.calls.copy()?,
        })
    }

    /// All bytes taken so far.
    pub fn bytes(&self) -> &[u8]
        ensures { result.now ≡ self.now.bytes }
    {
        &self.taken
    }
}

impl Sink for MemorySink {
    ghost taken = { λ s. Some s.bytes };

    ghost faults = { λ s. s.calls.faults };

    fn write(&mut self, bytes: &[u8]) -> Result<usize, Failed>
        ensures count { self.old.calls.faults ≤ self.new.calls.faults }
        ensures within { IfOk result (λ n. n ≤ length bytes.now) }
        ensures took { IfOk result (λ n. Took (Some self.old.bytes) (Some self.new.bytes) (take n bytes.now)) }
        ensures rose { IsRefused result bytes.now → Rose self.old.calls.faults self.new.calls.faults }

        ensures fails { IsNextFailing self.old.calls → IsErr result }
        ensures failed { OnErr result (FailedOnly self.old self.new) }
        ensures number { IfOk result (λ n. n ≡ min self.old.piece (length bytes.now)) }
        ensures left { IfOk result (λ n. Left self.old self.new (self.old.bytes ++ take n bytes.now)) }
    {
        let n = self.piece.min(bytes.len());
        if self.calls.is_next_failing() || self.taken.extend_from_slice(&bytes[..n]).is_err() {
            return Err(self.calls.fail());
        }
        self.calls.count();
        Ok(n)
    }
}
