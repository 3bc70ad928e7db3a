//! What a load of the stop word answers.
ghost use Rattle.std.specs.Prelude.{◌≡◌};
ghost use Rattle.pp_stop.specs.Words.{read_up};

/// The bit of a settled search, and that of a search that found no memory.
pub(crate) const SETTLED: u64 = 1;

pub(crate) const DRY: u64 = 2;

/// What one load of the stop word saw.
#[derive(Clone, Copy, Debug, PartialEq, Eq)]
pub enum Up {
    /// No bit.
    No,
    /// The bit of a settled search.
    Settled,
    /// The bit of a search that found no memory, alone.
    Dry,
}

pub(crate) fn read(word: u64) -> Up
    ensures { result ≡ read_up word }
{
    match word {
        0 => Up::No,
        2 => Up::Dry,
        _ => Up::Settled,
    }
}
