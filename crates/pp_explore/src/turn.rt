//! The turns of a search.
ghost use Rattle.std.specs.Prelude.{◌≡◌, ◌+◌, ◌<◌, ◌≤◌, ℕ, length, IfOk};
ghost use Rattle.pp_algebra.specs.Rows.{Row as RowValue};
ghost use Rattle.pp_sld.specs.Verdicts.{Mode};
ghost use Rattle.pp_sld.specs.Findings.{Finding};
ghost use Rattle.pp_walk.specs.Moves.{HasChoice};
ghost use Rattle.pp_path.specs.Works.{work_by, levels_of, HasMore};
ghost use Rattle.pp_explore.specs.declared.stage.Stage.TheVariants.{Enter, Try};
ghost use Rattle.pp_explore.specs.Standing.{StaysOver};
ghost use Rattle.pp_explore.specs.Searching.{state, FitsWork, IsReady, IsPlaceOf, HasLeft, GivesUp, PassesOver, Tries, Turns};

use crate::Walker;
use crate::stage::{Stage, Turned};
use pp_path::{Level, Work};
use pp_walk::{Event, Gatherer, SearchMachine, Steps, gather_answer, gather_loose};
use std::alloc::AllocError;
use std::sync::ledger::Ledger;

/// Gives up what the work's path leads to, and goes back to the choice of the next part that is left; false where
/// nothing is.
fn leave<M: SearchMachine>(walker: &mut Walker<M>, work: &mut Work) -> bool
    ensures clauses { M.clauses walker.new.machine ≡ M.clauses walker.old.machine }
    ensures left { HasLeft (M.place walker.old.machine) walker.old.path.items (work_by work.old) result
        (M.place walker.new.machine) walker.new.path.items (work_by work.new) }
    ensures stands { StaysOver (M.clauses walker.old.machine) (M.place walker.old.machine) walker.old.path.items
        (M.place walker.new.machine) walker.new.path.items }
{
    if !work.next() {
        return false;
    }
    let depth = work.path().len() - 1;
    walker.back_to(depth);
    true
}

/// Gives up what the work's path leads to. The alternatives of the choice here that come before this place fail.
fn give_up<M: SearchMachine>(walker: &mut Walker<M>, work: &mut Work, from: u64) -> Turned
    ensures clauses { M.clauses walker.new.machine ≡ M.clauses walker.old.machine }
    ensures gives_up { GivesUp (M.clauses walker.old.machine) (M.place walker.old.machine) walker.old.path.items
        (work_by work.old) from result (M.place walker.new.machine) walker.new.path.items (work_by work.new) }
    ensures stands { StaysOver (M.clauses walker.old.machine) (M.place walker.old.machine) walker.old.path.items
        (M.place walker.new.machine) walker.new.path.items }
{
    let depth = walker.path.len();
    if !leave(walker, work) {
        return Turned::Done;
    }
    if walker.path.len() != depth {
        return Turned::On(Stage::Try(0));
    }
    Turned::On(Stage::Try(from))
}

/// One step at the configuration here.
fn enter<M: SearchMachine, G: Gatherer, L: Ledger>(
    walker: &mut Walker<M>,
    work: &mut Work,
    gathered: &mut G,
    left: &mut u32,
    steps: &mut Steps<L>,
) -> Result<Turned, AllocError>
    requires { IsReady (M.clauses walker.old.machine) (G.call gathered.old)
        (state Enter (M.place walker.old.machine) walker.old.path.items (work_by work.old) (G.finding gathered.old)) }
    ensures clauses { M.clauses walker.new.machine ≡ M.clauses walker.old.machine }
    ensures mode { G.mode gathered.new ≡ G.mode gathered.old }
    ensures call { G.call gathered.new ≡ G.call gathered.old }
    ensures turns { IfOk result (λ t.
        Turns (M.clauses walker.old.machine) (G.mode gathered.old) (G.call gathered.old)
        (state Enter (M.place walker.old.machine) walker.old.path.items (work_by work.old) (G.finding gathered.old)) t
        (M.place walker.new.machine) walker.new.path.items (work_by work.new) (G.finding gathered.new)) }
    ensures stands { StaysOver (M.clauses walker.old.machine) (M.place walker.old.machine) walker.old.path.items
        (M.place walker.new.machine) walker.new.path.items }
    ensures paid { IfOk result (λ _. steps.old + left.old ≤ steps.new + left.new) }
    ensures at_most { steps.new ≤ steps.old + 1 }
{
    match walker.machine.step(steps)? {
        Event::Went => {
            *left = left.saturating_sub(1);
            Ok(Turned::On(Stage::Enter))
        }
        Event::Choice(count) => {
            work.down(count)?;
            Ok(Turned::On(Stage::Try(0)))
        }
        Event::Failed => Ok(give_up(walker, work, 0)),
        Event::Answer => {
            gather_answer(&mut walker.machine, gathered)?;
            Ok(give_up(walker, work, 0))
        }
        Event::Loose => {
            gather_loose(&mut walker.machine, gathered)?;
            Ok(give_up(walker, work, 0))
        }
    }
}

/// Tries the alternative at the place of the work's last level.
fn try_one<M: SearchMachine, L: Ledger>(
    walker: &mut Walker<M>,
    work: &mut Work,
    at: u64,
    left: &mut u32,
    steps: &mut Steps<L>,
) -> Result<Turned, AllocError>
    requires choice { HasChoice (M.clauses walker.old.machine) (M.place walker.old.machine).here at }
    requires place { IsPlaceOf (work_by work.old) at }
    ensures clauses { M.clauses walker.new.machine ≡ M.clauses walker.old.machine }
    ensures tries { IfOk result (λ t. (from : ℕ)
        → Tries (M.clauses walker.old.machine) (M.place walker.old.machine) walker.old.path.items (work_by work.old)
        from t (M.place walker.new.machine) walker.new.path.items (work_by work.new)) }
    ensures stands { StaysOver (M.clauses walker.old.machine) (M.place walker.old.machine) walker.old.path.items
        (M.place walker.new.machine) walker.new.path.items }
    ensures paid { IfOk result (λ _. steps.old + left.old ≤ steps.new + left.new) }
    ensures at_most { steps.new ≤ steps.old + 1 }
{
    *left = left.saturating_sub(1);
    if walker.take(at, steps)? {
        return Ok(Turned::Tried(Stage::Enter));
    }
    if leave(walker, work) {
        return Ok(Turned::Tried(Stage::Try(0)));
    }
    Ok(Turned::Done)
}

/// The work's last level.
fn last_level(work: &Work) -> Level
    requires { 1 ≤ length (levels_of work.now) }
    ensures place { IsPlaceOf (work_by work.now) result.now }
    ensures more { (n : ℕ) → result.now + n < result.end → HasMore work.now n }
{
    let levels = work.path();
    levels[levels.len() - 1]
}

/// Passes at once over the alternatives of the choice here that come before this place, which fail; the next one is
/// among them. Gives up where no other is left.
fn pass_over<M: SearchMachine>(walker: &mut Walker<M>, work: &mut Work, from: u64) -> Turned
    requires { 1 ≤ length (levels_of work.old) }
    ensures clauses { M.clauses walker.new.machine ≡ M.clauses walker.old.machine }
    ensures passes { PassesOver (M.clauses walker.old.machine) (M.place walker.old.machine) walker.old.path.items
        (work_by work.old) from result (M.place walker.new.machine) walker.new.path.items (work_by work.new) }
    ensures stands { StaysOver (M.clauses walker.old.machine) (M.place walker.old.machine) walker.old.path.items
        (M.place walker.new.machine) walker.new.path.items }
{
    let last = last_level(work);
    let to = from.min(last.end.saturating_sub(1));
    if to > last.now {
        work.skip(to - last.now);
        return Turned::On(Stage::Try(from));
    }
    give_up(walker, work, from)
}

/// Tries the next alternative here, or passes over it where it is known to fail.
fn attempt<M: SearchMachine, L: Ledger>(
    walker: &mut Walker<M>,
    work: &mut Work,
    from: u64,
    left: &mut u32,
    steps: &mut Steps<L>,
) -> Result<Turned, AllocError>
    requires { FitsWork (M.clauses walker.old.machine) (Try from) (M.place walker.old.machine) walker.old.path.items
        (work_by work.old) }
    ensures clauses { M.clauses walker.new.machine ≡ M.clauses walker.old.machine }
    ensures tries { IfOk result (λ t.
        Tries (M.clauses walker.old.machine) (M.place walker.old.machine) walker.old.path.items (work_by work.old) from
        t (M.place walker.new.machine) walker.new.path.items (work_by work.new)) }
    ensures stands { StaysOver (M.clauses walker.old.machine) (M.place walker.old.machine) walker.old.path.items
        (M.place walker.new.machine) walker.new.path.items }
    ensures paid { IfOk result (λ _. steps.old + left.old ≤ steps.new + left.new) }
    ensures at_most { steps.new ≤ steps.old + 1 }
{
    let at = last_level(work).now;
    if at < from {
        return Ok(pass_over(walker, work, from));
    }
    match walker.machine.place_from(at) {
        Some(next) => {
            if next == at {
                try_one(walker, work, at, left, steps)
            } else {
                Ok(pass_over(walker, work, next))
            }
        }
        None => Ok(pass_over(walker, work, u64::MAX)),
    }
}

/// One reduction at most.
pub(crate) fn turn<M: SearchMachine, G: Gatherer, L: Ledger>(
    walker: &mut Walker<M>,
    work: &mut Work,
    stage: Stage,
    gathered: &mut G,
    left: &mut u32,
    steps: &mut Steps<L>,
) -> Result<Turned, AllocError>
    requires { IsReady (M.clauses walker.old.machine) (G.call gathered.old)
        (state stage (M.place walker.old.machine) walker.old.path.items (work_by work.old) (G.finding gathered.old)) }
    ensures clauses { M.clauses walker.new.machine ≡ M.clauses walker.old.machine }
    ensures mode { G.mode gathered.new ≡ G.mode gathered.old }
    ensures call { G.call gathered.new ≡ G.call gathered.old }
    ensures turns { IfOk result (λ t.
        Turns (M.clauses walker.old.machine) (G.mode gathered.old) (G.call gathered.old)
        (state stage (M.place walker.old.machine) walker.old.path.items (work_by work.old) (G.finding gathered.old)) t
        (M.place walker.new.machine) walker.new.path.items (work_by work.new) (G.finding gathered.new)) }
    ensures stands { StaysOver (M.clauses walker.old.machine) (M.place walker.old.machine) walker.old.path.items
        (M.place walker.new.machine) walker.new.path.items }
    ensures paid { IfOk result (λ _. steps.old + left.old ≤ steps.new + left.new) }
    ensures at_most { steps.new ≤ steps.old + 1 }
{
    match stage {
        Stage::Enter => enter(walker, work, gathered, left, steps),
        Stage::Try(from) => attempt(walker, work, from, left, steps),
    }
}
