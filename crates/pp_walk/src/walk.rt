//! The walk.
ghost use Rattle.std.specs.Prelude.{◌≡◌, ℕ, ◌<◌, ◌^◌, [], List, reverse, IfOk, OnErr, MatchOption, true, false};
ghost use Rattle.pp_algebra.specs.Rows.{Row};
ghost use Rattle.pp_sld.specs.Trees.{Search, IsSearch};
ghost use Rattle.pp_sld.specs.Trace.{leaves};
ghost use Rattle.pp_sld.specs.Findings.{Finding, empty, settled};
ghost use Rattle.pp_sld.specs.Verdicts.{Mode};
ghost use Rattle.pp_sld.specs.Lattice.{LeavesUnder};
ghost use Rattle.pp_sld.proofs.Trees.{tree};
ghost use Rattle.pp_walk.specs.Walking.{state, IsReady, AreTaken, FitsHere, Turns, Goes, Costs};
ghost use Rattle.pp_walk.specs.Found.{IsWalkFinding, IsWithinWalk};
ghost use Rattle.pp_walk.specs.declared.stage.Stage.TheVariants.{Enter, Try, Back};

use crate::leaf::{gather_answer, gather_loose};
use crate::stage::Stage;
use crate::{Event, Gatherer, Next, SearchMachine, Steps};
use std::alloc::{AllocError, Global};
use std::sync::ledger::Ledger;

/// The first of so many alternatives. Their number fits its type, so a place behind one of them does.
fn first_of(_count: u64) -> Stage
    ensures first { result ≡ Try 0 }
    ensures counted { _count < 2 ^ 64 }
{
    Stage::Try(0)
}

/// What comes after a leaf: nothing, where what was gathered is settled.
fn after_leaf<G: Gatherer>(gathered: &G) -> Option<Stage>
    ensures { MatchOption result (settled (G.call gathered.now) (G.finding gathered.now) ≡ true)
        (λ s. (settled (G.call gathered.now) (G.finding gathered.now) ≡ false) × (s ≡ Back)) }
{
    if gathered.is_settled() {
        None
    } else {
        Some(Stage::Back)
    }
}

/// One step at a configuration that wasn't entered yet, whatever is owed above it.
fn enter<M: SearchMachine, G: Gatherer, L: Ledger>(
    machine: &mut M,
    gathered: &mut G,
    steps: &mut Steps<L>,
) -> Result<Option<Stage>, AllocError>
    requires { LeavesUnder (G.call gathered.old) (leaves (tree (M.clauses machine.old) (M.place machine.old).here)) }
    ensures clauses { M.clauses machine.new ≡ M.clauses machine.old }
    ensures mode { G.mode gathered.new ≡ G.mode gathered.old }
    ensures call { G.call gathered.new ≡ G.call gathered.old }
    ensures turns { IfOk result (λ o. (ks : List ℕ)
        → IsReady (M.clauses machine.old) (G.call gathered.old) Enter (M.place machine.old) ks
        → Turns (M.clauses machine.old) (G.mode gathered.old) (G.call gathered.old)
        (state Enter (M.place machine.old) ks (G.finding gathered.old) steps.old) o (M.place machine.new) ks
        (G.finding gathered.new) steps.new) }
    ensures costs { OnErr result ((ks : List ℕ)
        → Costs (M.clauses machine.old) (G.mode gathered.old) (G.call gathered.old)
        (state Enter (M.place machine.old) ks (G.finding gathered.old) steps.old) steps.new) }
{
    match machine.step(steps)? {
        Event::Went => Ok(Some(Stage::Enter)),
        Event::Choice(count) => Ok(Some(first_of(count))),
        Event::Failed => Ok(Some(Stage::Back)),
        Event::Answer => {
            gather_answer(machine, gathered)?;
            Ok(after_leaf(gathered))
        }
        Event::Loose => {
            gather_loose(machine, gathered)?;
            Ok(after_leaf(gathered))
        }
    }
}

/// Takes the next alternative here that leads on, if the next one that may lead on does. No choice is kept for one
/// that is known to be the last.
fn attempt<M: SearchMachine, L: Ledger>(
    machine: &mut M,
    from: u64,
    levels: &mut Vec<u64>,
    steps: &mut Steps<L>,
) -> Result<Stage, AllocError>
    requires { FitsHere (M.clauses machine.old) (Try from) (M.place machine.old).here }
    ensures clauses { M.clauses machine.new ≡ M.clauses machine.old }
    ensures goes { IfOk result (λ s. (m : Mode) (call : Row) (f : Finding)
        → IsReady (M.clauses machine.old) call (Try from) (M.place machine.old) (reverse levels.old.items)
        → Goes (M.clauses machine.old) m call
        (state (Try from) (M.place machine.old) (reverse levels.old.items) f steps.old)
        (state s (M.place machine.new) (reverse levels.new.items) f steps.new)) }
    ensures costs { OnErr result ((m : Mode) (call : Row) (f : Finding)
        → Costs (M.clauses machine.old) m call
        (state (Try from) (M.place machine.old) (reverse levels.old.items) f steps.old) steps.new) }
{
    let at = match machine.next_from(from) {
        Next::Nothing => return Ok(Stage::Back),
        Next::Last(at) => {
            let goes = machine.commit(at, steps)?;
            return Ok(if goes { Stage::Enter } else { Stage::Back });
        }
        Next::At(at) => at,
    };
    if !machine.choose(at, steps)? {
        return Ok(Stage::Try(at + 1));
    }
    levels.push(at + 1)?;
    Ok(Stage::Enter)
}

/// Goes back to the choice above, if there is one.
fn retreat<M: SearchMachine>(machine: &mut M, levels: &mut Vec<u64>) -> Option<Stage>
    requires { AreTaken (M.clauses machine.old) (M.place machine.old).above (reverse levels.old.items) }
    ensures clauses { M.clauses machine.new ≡ M.clauses machine.old }
    ensures turns { (m : Mode) (call : Row) (f : Finding) (n : ℕ)
        → IsReady (M.clauses machine.old) call Back (M.place machine.old) (reverse levels.old.items)
        → Turns (M.clauses machine.old) m call (state Back (M.place machine.old) (reverse levels.old.items) f n) result
        (M.place machine.new) (reverse levels.new.items) f n }
{
    let next = levels.pop()?;
    machine.back();
    Some(Stage::Try(next))
}

fn turn<M: SearchMachine, G: Gatherer, L: Ledger>(
    machine: &mut M,
    stage: Stage,
    levels: &mut Vec<u64>,
    gathered: &mut G,
    steps: &mut Steps<L>,
) -> Result<Option<Stage>, AllocError>
    requires { IsReady (M.clauses machine.old) (G.call gathered.old) stage (M.place machine.old)
        (reverse levels.old.items) }
    ensures clauses { M.clauses machine.new ≡ M.clauses machine.old }
    ensures mode { G.mode gathered.new ≡ G.mode gathered.old }
    ensures call { G.call gathered.new ≡ G.call gathered.old }
    ensures turns { IfOk result (λ o.
        Turns (M.clauses machine.old) (G.mode gathered.old) (G.call gathered.old)
        (state stage (M.place machine.old) (reverse levels.old.items) (G.finding gathered.old) steps.old) o
        (M.place machine.new) (reverse levels.new.items) (G.finding gathered.new) steps.new) }
    ensures costs { OnErr result (Costs (M.clauses machine.old) (G.mode gathered.old) (G.call gathered.old)
        (state stage (M.place machine.old) (reverse levels.old.items) (G.finding gathered.old) steps.old) steps.new) }
{
    match stage {
        Stage::Enter => enter(machine, gathered, steps),
        Stage::Try(from) => Ok(Some(attempt(machine, from, levels, steps)?)),
        Stage::Back => Ok(retreat(machine, levels)),
    }
}

/// Walks from left to right through the search at whose root the machine stands, and gathers the leaves, until what
/// was gathered is settled or nothing is left. It makes no more reductions than that walk; those of alternatives
/// that the machine passes over are saved. It holds one number for each choice above.
pub fn gather<M: SearchMachine, G: Gatherer, L: Ledger>(
    alloc: Global,
    machine: &mut M,
    gathered: &mut G,
    steps: &mut Steps<L>,
) -> Result<(), AllocError>
    requires root { (M.place machine.old).above ≡ [] }
    requires under { (t : Search) → IsSearch (M.clauses machine.old) (M.place machine.old).here t
        → LeavesUnder (G.call gathered.old) (leaves t) }
    requires empty { G.finding gathered.old ≡ empty (G.mode gathered.old) }
    ensures clauses { M.clauses machine.new ≡ M.clauses machine.old }
    ensures mode { G.mode gathered.new ≡ G.mode gathered.old }
    ensures call { G.call gathered.new ≡ G.call gathered.old }
    ensures finding { IfOk result (λ _.
        IsWalkFinding (M.clauses machine.old) (G.mode gathered.old) (G.call gathered.old) (M.place machine.old).here
        (G.finding gathered.new)) }
    ensures steps { IsWithinWalk (M.clauses machine.old) (G.mode gathered.old) (G.call gathered.old)
        (M.place machine.old).here steps.old steps.new }
{
    let mut levels: Vec<u64> = Vec::new(alloc);
    let mut stage = Stage::Enter;
    loop {
        match turn(machine, stage, &mut levels, gathered, steps)? {
            Some(next) => stage = next,
            None => return Ok(()),
        }
    }
}
