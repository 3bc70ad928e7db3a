//! What a search does next.

/// What a search does next.
#[derive(Clone, Copy, Debug)]
pub(crate) enum Stage {
    /// It enters the configuration here, to which the work's path leads.
    Enter,
    /// It tries the alternatives of the choice here, which the last level of the work counts. From that level's
    /// place on, those before this one fail.
    Try(u64),
}

/// What a turn of a search comes to.
#[derive(Clone, Copy, Debug)]
pub(crate) enum Turned {
    /// Nothing is left.
    Done,
    /// The search goes on.
    On(Stage),
    /// An alternative was tried, and the search goes on where its budget isn't used up.
    Tried(Stage),
}
