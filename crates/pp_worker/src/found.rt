//! What one search of a task comes to.
use pp_core::Tasks;
use pp_space::{Lattice, Space};
use pp_stop::Up;

/// What was found of a task, which tasks are left of it, and what the last load of the stop word saw.
#[derive(Drop)]
pub struct FoundOf<T, V> {
    pub value: V,
    pub rest: Tasks<T>,
    pub up: Up,
}

/// What was found in a space.
pub type Found<S> = FoundOf<<S as Space>::Task, <S as Lattice>::Value>;
