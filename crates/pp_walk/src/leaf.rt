//! A leaf that a machine has come to is gathered.
ghost use Rattle.std.specs.Prelude.{◌≡◌, IfOk, IsTrue, MatchOption};
ghost use Rattle.pp_algebra.specs.Covers.{RowCovers};
ghost use Rattle.pp_sld.specs.Leaves.{leaf_row};
ghost use Rattle.pp_sld.specs.Lattice.{IsUnder, add_answer, add_loose};

use crate::{Gatherer, SearchMachine};
use pp_row::Row;
use std::alloc::AllocError;

/// Whether there is a row that is known to cover the one here.
fn is_known<M: SearchMachine>(machine: &mut M, cover: Option<&Row>) -> Result<bool, AllocError>
    ensures clauses { M.clauses machine.new ≡ M.clauses machine.old }
    ensures place { M.place machine.new ≡ M.place machine.old }
    ensures covers { IfOk result (λ is. IsTrue is
        → MatchOption cover.entry ⊥ (λ w. RowCovers w.now (leaf_row (M.place machine.old).here))) }
{
    match cover {
        Some(cover) => machine.is_covered(cover),
        None => Ok(false),
    }
}

/// Adds the answer here. Of one that is known to change nothing no row is made.
pub fn gather_answer<M: SearchMachine, G: Gatherer>(
    machine: &mut M,
    gathered: &mut G,
) -> Result<(), AllocError>
    requires { IsUnder (G.call gathered.old) (leaf_row (M.place machine.old).here) }
    ensures clauses { M.clauses machine.new ≡ M.clauses machine.old }
    ensures place { M.place machine.new ≡ M.place machine.old }
    ensures mode { G.mode gathered.new ≡ G.mode gathered.old }
    ensures call { G.call gathered.new ≡ G.call gathered.old }
    ensures added { IfOk result (λ _.
        G.finding gathered.new ≡ add_answer (G.mode gathered.old) (leaf_row (M.place machine.old).here)
        (G.finding gathered.old)) }
{
    if is_known(machine, gathered.answer_cover())? {
        return Ok(());
    }
    let row = machine.row()?;
    gathered.add_answer(row)
}

/// Adds the loose end here. Of one that is known to change nothing no row is made.
pub fn gather_loose<M: SearchMachine, G: Gatherer>(
    machine: &mut M,
    gathered: &mut G,
) -> Result<(), AllocError>
    requires { IsUnder (G.call gathered.old) (leaf_row (M.place machine.old).here) }
    ensures clauses { M.clauses machine.new ≡ M.clauses machine.old }
    ensures place { M.place machine.new ≡ M.place machine.old }
    ensures mode { G.mode gathered.new ≡ G.mode gathered.old }
    ensures call { G.call gathered.new ≡ G.call gathered.old }
    ensures added { IfOk result (λ _.
        G.finding gathered.new ≡ add_loose (G.mode gathered.old) (leaf_row (M.place machine.old).here)
        (G.finding gathered.old)) }
{
    if is_known(machine, gathered.loose_cover())? {
        return Ok(());
    }
    let row = machine.row()?;
    gathered.add_loose(row)
}
