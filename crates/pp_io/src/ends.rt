// What gives bytes and what takes them.
ghost use Rattle.std.specs.Prelude.{◌≡◌, ℕ, ◌<◌, ◌≤◌, List, length, take, Option, IfOk, OnErr};
ghost use Rattle.pp_io.specs.Ends.{Rose, Gave, Took, ShowsEnd, IsRefused};

/// A call of a source or a sink failed. The count of faults says that it did.
#[derive(Clone, Copy, Debug, PartialEq, Eq)]
pub struct Failed;

/// What bytes are read from.
pub trait Source {
    // The bytes still to come, where the source tells them.
    ghost left: { Self → Option (List ℕ) };

    // How many calls failed. The count stands still at the last value of a u64.
    ghost faults: { Self → ℕ };

    /// Reads the next bytes into the front of `buf` and returns how many they are.
    /// With room in `buf`, 0 means the end.
    fn read(&mut self, buf: &mut [u8]) -> Result<usize, Failed>
        ensures count { faults self.old ≤ faults self.new }
        ensures within { IfOk result (λ n. n ≤ length buf.new) }
        ensures given { IfOk result (λ n. Gave (left self.old) (left self.new) (take n buf.new)) }
        ensures end { IfOk result (λ n. 0 < length buf.new → ShowsEnd (left self.old) n) }
        ensures rose { OnErr result (Rose (faults self.old) (faults self.new)) }
        ensures kept { OnErr result (left self.new ≡ left self.old) };
}

/// What bytes are written to.
pub trait Sink {
    // The bytes taken so far, where the sink tells them.
    ghost taken: { Self → Option (List ℕ) };

    // How many calls failed or took nothing. The count stands still at the last value of a u64.
    ghost faults: { Self → ℕ };

    /// Takes a beginning of `bytes` and returns its length.
    fn write(&mut self, bytes: &[u8]) -> Result<usize, Failed>
        ensures count { faults self.old ≤ faults self.new }
        ensures within { IfOk result (λ n. n ≤ length bytes.now) }
        ensures took { IfOk result (λ n. Took (taken self.old) (taken self.new) (take n bytes.now)) }
        ensures rose { IsRefused result bytes.now → Rose (faults self.old) (faults self.new) }
        ensures kept { IsRefused result bytes.now → taken self.new ≡ taken self.old };
}
