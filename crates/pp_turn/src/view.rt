//! What a seat knows, and what the rule is told when a lock is made.
use std::collections::LinkedList;
use std::snapshot::Snapshot;

/// What a seat knows. No value of it is made.
pub struct View<L, B> {
    /// None once the seat was joined to another.
    pub base: Option<B>,
    /// The first number of the span.
    pub number: u64,
    /// How many numbers the span has.
    pub span: u64,
    /// The log as it was last seen.
    pub seen: LinkedList<L>,
    /// Right after a join, the logs that the two seats had seen.
    pub left: LinkedList<L>,
    pub right: LinkedList<L>,
    /// Whether the seat holds a ticket, and which.
    pub waits: bool,
    pub ticket: u64,
    pub in_turn: bool,
    /// In the turn, the log of the value that was taken.
    pub kept: LinkedList<L>,
}

/// The value that a lock begins with, and how many seats it has.
#[derive(Drop)]
pub struct Key<T> {
    pub(crate) value: Snapshot<T>,
    pub(crate) seats: u32,
}
