//! What a turn of a worker comes to.

#[derive(Clone, Copy, Debug, PartialEq, Eq)]
pub enum Turned {
    /// A task was searched and reported.
    Worked,
    /// The stop word was up.
    Stopped,
    /// There was no task.
    Idle,
}
