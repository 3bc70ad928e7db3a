//! The next alternative.

/// What is tried next of a choice.
#[derive(Clone, Copy, Debug, PartialEq, Eq)]
pub enum Next {
    /// Nothing: all that is left fails.
    Nothing,
    /// The alternative at this place, and all behind it fail.
    Last(u64),
    /// The alternative at this place. Nothing is said of those behind it.
    At(u64),
}
