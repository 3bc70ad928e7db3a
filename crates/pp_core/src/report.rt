//! What a worker found out about a task.
use crate::Tasks;
use pp_space::{Lattice, Space};

/// What was found of `task`, and the tasks that are left of it, by a worker that knew the value `under`. It is fit
/// where the task's worth joined with `under` is what was found, joined with the worths of the rest and with `under`.
#[derive(Drop)]
pub struct ReportOf<T, V> {
    pub task: T,
    pub rest: Tasks<T>,
    pub found: V,
    pub under: V,
}

/// A report in a space.
pub type Report<S> = ReportOf<<S as Space>::Task, <S as Lattice>::Value>;
