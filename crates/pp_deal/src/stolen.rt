//! What comes of a steal.

/// What a steal answers.
#[derive(Debug, Drop, PartialEq, Eq)]
pub enum Stolen<T> {
    /// The first item.
    Item(T),
    /// There was no item.
    Empty,
    /// Another was faster.
    Again,
}
