//! A value with a log, which is handed from turn to turn.
ghost use Rattle.std.specs.Prelude.{ℕ, List};

/// What a lock holds: a value that grows by at most one entry a turn, over a base that never changes.
pub trait Kept {
    type Entry;

    type Base;

    // The entries that were made so far, in their order.
    ghost log: { Self → List Self.Entry };

    // The number of the seat that made an entry.
    ghost bearer: { Self.Entry → ℕ };

    // What all turns have in common.
    ghost base: { Self → Self.Base };
}
