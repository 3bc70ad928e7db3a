//! What the hand and each peek of a deque know.
use std::collections::LinkedList;

/// What a hand or a peek knows. No value of it is made.
pub struct Tally<T> {
    /// Whether it is the hand's.
    pub leads: bool,
    /// Whether it is a peek's that didn't come back yet.
    pub is_out: bool,
    /// How many peeks the hand has given and not got back.
    pub peeks: u64,
    /// What was offered, in order.
    pub offered: LinkedList<T>,
    /// What was taken or stolen, in order.
    pub taken: LinkedList<T>,
}
