//! What a step comes to.

/// What a step of a search machine comes to. The last three end the branch.
#[derive(Clone, Copy, Debug, PartialEq, Eq)]
pub enum Event {
    /// A built-in was performed.
    Went,
    /// A goal with so many alternatives is selected, at least one, and the machine hasn't moved.
    Choice(u64),
    /// The selected goal has no alternative, or a built-in didn't hold.
    Failed,
    /// An answer.
    Answer,
    /// A loose end: its depth is spent, or all its goals wait.
    Loose,
}
