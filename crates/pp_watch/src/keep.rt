//! Whether a watcher stays.

/// What a watcher answers to a change.
#[derive(Clone, Copy, Debug, PartialEq, Eq)]
pub enum Keep {
    /// It is told of the next change too.
    Stay,
    /// It has no more room, and is dropped before the next watcher is told.
    Leave,
}
