//! The verdict of a goal's search, by any machine.
ghost use Rattle.std.specs.Prelude.{◌≡◌, ℕ, IfOk};
ghost use Rattle.pp_algebra.specs.Rows.{Row as RowValue};
ghost use Rattle.pp_algebra.specs.Numbered.{call as call_of};
ghost use Rattle.pp_sld.specs.Goals.{Shape};
ghost use Rattle.pp_sld.specs.Verdicts.{HasVerdict};
ghost use Rattle.pp_term.specs.Meanings.{mode_of};
ghost use Rattle.pp_walk.specs.Found.{IsWithinWalk};
ghost use Rattle.pp_find.specs.Meanings.{verdict_by};
ghost use Rattle.pp_infer.specs.Roots.{IsAtRoot, IsAtSomeRoot};

use pp_find::Verdict;
use pp_row::Row;
use pp_search::Gathered;
use pp_term::Mode;
use pp_walk::{SearchMachine, Steps, gather};
use std::alloc::{AllocError, Global};
use std::sync::ledger::Ledger;

/// The verdict of the goal at the root of whose search the machine stands, which has this call. It stops as soon as
/// nothing that is still to come can change the verdict, and counts its reductions.
pub fn infer<M: SearchMachine, L: Ledger>(
    alloc: Global,
    machine: &mut M,
    mode: Mode,
    call: Row,
    steps: &mut Steps<L>,
) -> Result<Verdict, AllocError>
    requires root { IsAtSomeRoot (M.place machine.old) call }
    ensures clauses { M.clauses machine.new ≡ M.clauses machine.old }
    ensures verdict { IfOk result (λ v. (shape : Shape) (face : RowValue) (depth : ℕ)
        → IsAtRoot (M.place machine.old) shape face depth → call ≡ call_of face
        → HasVerdict (M.clauses machine.old) depth (mode_of mode) shape face (verdict_by v)) }
    ensures steps { IsWithinWalk (M.clauses machine.old) (mode_of mode) call (M.place machine.old).here steps.old
        steps.new }
{
    let mut gathered = Gathered::new(alloc, mode, call);
    gather(alloc, machine, &mut gathered, steps)?;
    gathered.verdict()
}
