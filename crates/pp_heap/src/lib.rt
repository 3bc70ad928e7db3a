//! Terms in a heap of cells, variables in slots with their domains, and a trail by which each change is undone.
#![tactic(auto)]

mod bind;
mod deref;
mod heap;
mod occurs;
mod spans;
mod state;
mod undo;

pub use spans::Span;
pub use state::{Entry, Slot, State, Value};
