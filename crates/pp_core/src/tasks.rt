//! Lists of tasks.
ghost use Rattle.std.specs.Prelude.{◌≡◌, IfOk};

use pp_list::ListOf;
use pp_space::Space;
use std::alloc::{AllocError, Global};

/// Tasks in order.
pub type Tasks<T> = ListOf<T>;

/// The tasks, copied.
pub fn copy_tasks<S: Space>(
    alloc: Global,
    space: &S,
    tasks: &[S::Task],
) -> Result<Vec<S::Task>, AllocError>
    ensures { IfOk result (λ copies. copies.items ≡ tasks.now) }
{
    let mut copies = Vec::with_capacity(alloc, tasks.len())?;
    for i in 0..tasks.len() {
        copies.push_reserved(space.copy_task(&tasks[i])?);
    }
    Ok(copies)
}
