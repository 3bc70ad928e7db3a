//! What comes of an offer that finds no memory.

/// There was no memory. The item comes back.
#[derive(Debug, Drop, PartialEq, Eq)]
pub struct Offered<T> {
    pub item: T,
}
