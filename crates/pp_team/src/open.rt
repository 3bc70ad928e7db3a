//! What the workers of a search share.
ghost use Rattle.std.specs.Prelude.{◌≡◌, ◌≤◌, ◌+◌, All, IfOk, vec_len};
ghost use Rattle.pp_cell.specs.Passes.{IsPassOf, pass_root, pass_space};

use pp_cell::{Cell, Pass};
use pp_worker::Explorer;
use std::alloc::{AllocError, Global};

/// The cell of the search, and so many passes.
fn cell_of<'a, E: Explorer>(
    alloc: Global,
    space: &'a E,
    root: E::Task,
    seats: u32,
) -> Result<(Cell<'a, E>, Vec<Pass<'a, E>>), AllocError>
    requires { (1 ≤ seats) × (seats ≤ 65) }
    ensures count { IfOk result (λ t. vec_len t.1 ≡ seats) }
    ensures passes { IfOk result (λ t. All (λ p. IsPassOf t.0 p × (pass_space p ≡ space.now) × (pass_root p ≡ root)) t.1.items) }
{
    let (cell, passes) = Cell::new(alloc, space, root, seats)?;
    Ok((cell, passes))
}

/// The cell of the search, the caller's pass, and a pass for each worker.
pub(crate) fn open<'a, E: Explorer>(
    alloc: Global,
    space: &'a E,
    root: E::Task,
    workers: u32,
) -> Result<(Cell<'a, E>, Pass<'a, E>, Vec<Pass<'a, E>>), AllocError>
    requires { (1 ≤ workers) × (workers ≤ 64) }
    ensures own { IfOk result (λ t. IsPassOf t.0 t.1 × (pass_space t.1 ≡ space.now) × (pass_root t.1 ≡ root)) }
    ensures count { IfOk result (λ t. vec_len t.2 ≡ workers) }
    ensures passes { IfOk result (λ t. All (λ p. (space.now ≡ pass_space p) × IsPassOf t.0 p) t.2.items) }
{
    let (cell, mut passes) = cell_of(alloc, space, root, workers + 1)?;
    let Some(own) = passes.pop() else {
        unreachable!()
    };
    Ok((cell, own, passes))
}
