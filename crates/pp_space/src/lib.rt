//! Lattices of values, spaces of tasks with a worth, and values that are known to have the outcome of a task.
//!
//! A search that is cut into tasks is an instance of [`Space`]: whoever joins what was found in a lattice may gather
//! it in any order and any grouping, with repeats.
#![tactic(auto)]

mod lattice;
mod settled;
mod space;

pub use lattice::Lattice;
pub use settled::Settled;
pub use space::Space;
