//! What stands in a journal.
use crate::ReportOf;
use pp_space::{Lattice, Space};

/// What was done to a core.
#[derive(Drop)]
pub enum Act<T, V> {
    /// This report was accepted.
    Reported(ReportOf<T, V>),
    /// A report of this task came when the task wasn't live.
    Stale(T),
    /// The state was looked at.
    Looked,
}

/// An act, with the number of the seat that did it.
#[derive(Drop)]
pub struct EntryOf<T, V> {
    pub seat: u32,
    pub act: Act<T, V>,
}

/// An entry in a space.
pub type Entry<S> = EntryOf<<S as Space>::Task, <S as Lattice>::Value>;
