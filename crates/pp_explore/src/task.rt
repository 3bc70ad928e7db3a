//! The search of one task.
ghost use Rattle.std.specs.Prelude.{◌≡◌, ◌≢◌, ◌+◌, ◌<◌, ◌≤◌, ◌∷◌, ℕ, List, [], true, false, None, map, All, IfOk};
ghost use Rattle.pp_sld.specs.Trace.{Leaf};
ghost use Rattle.pp_sld.specs.Trees.{Search as Tree};
ghost use Rattle.pp_sld.specs.Works.{Work as WorkValue, IsLater};
ghost use Rattle.pp_sld.specs.Reports.{HasWalked};
ghost use Rattle.pp_path.specs.Works.{work_by};
ghost use Rattle.pp_stop.specs.declared.up.Up.TheVariants.{No};
ghost use Rattle.pp_stop.specs.Words.{up_of};
ghost use Rattle.pp_stop.specs.Seats.{IsSeatOf, StillSeen, has_seen, late, loads, saw_dry, saw_settled};
ghost use Rattle.pp_explore.specs.Standing.{StaysOver};
ghost use Rattle.pp_explore.specs.Exploring.{IsUnderCall, HasGathered};
ghost use Rattle.pp_explore.specs.Searching.{state, IsOn, IsReady, HasSearched};

use crate::Walker;
use crate::arrive::arrive;
use crate::stage::{Stage, Turned};
use crate::turn::turn;
use pp_path::Work;
use pp_stop::{Stop, StopSeat, Up};
use pp_walk::{Gatherer, SearchMachine, Steps};
use std::alloc::{AllocError, Global};
use std::sync::ledger::Ledger;

/// What a search of a task has left over.
#[derive(Drop)]
pub struct Explored {
    /// The works that are left. The first is to be walked on.
    pub rest: Vec<Work>,
    /// What the last load of the stop word saw.
    pub up: Up,
}

/// The work, and what can be split off it for others.
fn divided(alloc: Global, mut work: Work) -> Result<Vec<Work>, AllocError>
    requires open { work ≢ None }
    ensures open { IfOk result (λ rest. All (λ w. w ≢ None) rest.items) }
    ensures walked { IfOk result (λ rest. (t : Tree) (task : WorkValue) (xs : List Leaf)
        → HasWalked t task xs (work_by work ∷ []) → HasWalked t task xs (map work_by rest.items)) }
    ensures later { IfOk result (λ rest. (task : WorkValue) → IsLater (work_by work) task
        → All (λ w. IsLater (work_by w) task) rest.items) }
{
    let mut rest = Vec::with_capacity(alloc, 2)?;
    let Some(other) = work.split()? else {
        rest.push_reserved(work);
        return Ok(rest);
    };
    rest.push_reserved(work);
    rest.push_reserved(other);
    Ok(rest)
}

/// The work alone.
fn whole(alloc: Global, work: Work) -> Result<Vec<Work>, AllocError>
    ensures { IfOk result (λ rest. rest.items ≡ work ∷ []) }
{
    let mut rest = Vec::with_capacity(alloc, 1)?;
    rest.push_reserved(work);
    Ok(rest)
}

/// Searches on from where the walker stands, with one load of the stop word before each turn.
fn search<M: SearchMachine, G: Gatherer, L: Ledger>(
    alloc: Global,
    walker: &mut Walker<M>,
    mut work: Work,
    mut stage: Stage,
    gathered: &mut G,
    budget: u32,
    stop: &Stop,
    seat: &mut StopSeat,
    steps: &mut Steps<L>,
) -> Result<Explored, AllocError>
    requires seat { IsSeatOf stop.now seat.old }
    requires fresh { has_seen seat.old ≡ false }
    requires budget { 1 ≤ budget }
    requires ready { IsReady (M.clauses walker.old.machine) (G.call gathered.old)
        (state stage (M.place walker.old.machine) walker.old.path.items (work_by work) (G.finding gathered.old)) }
    ensures clauses { M.clauses walker.new.machine ≡ M.clauses walker.old.machine }
    ensures mode { G.mode gathered.new ≡ G.mode gathered.old }
    ensures call { G.call gathered.new ≡ G.call gathered.old }
    ensures stands { StaysOver (M.clauses walker.old.machine) (M.place walker.old.machine) walker.old.path.items
        (M.place walker.new.machine) walker.new.path.items }
    ensures searched { IfOk result
        (λ e. HasSearched (M.clauses walker.old.machine) (G.mode gathered.old)
        (state stage (M.place walker.old.machine) walker.old.path.items (work_by work) (G.finding gathered.old))
        (map work_by e.rest.items) (G.finding gathered.new)) }
    ensures open { IfOk result (λ e. All (λ w. w ≢ None) e.rest.items) }
    ensures later { IfOk result (λ e. e.up ≡ No → (task : WorkValue) → IsOn stage task (work_by work)
        → All (λ w. IsLater (work_by w) task) e.rest.items) }
    ensures up { IfOk result (λ e. e.up ≡ up_of (saw_settled seat.new) (saw_dry seat.new)) }
    ensures seat { IsSeatOf stop.now seat.new }
    ensures late { late seat.new ≡ late seat.old }
    ensures budget { IfOk result (λ e. e.up ≡ No → e.rest.items ≢ [] → steps.old + budget ≤ steps.new) }
    ensures seen { StillSeen seat.old seat.new }
    ensures loads { loads seat.old + steps.new ≤ loads seat.new + steps.old }
{
    let mut left = budget;
    loop {
        let up = stop.is_up(seat);
        if up != Up::No {
            let rest = whole(alloc, work)?;
            return Ok(Explored { rest, up });
        }
        match turn(walker, &mut work, stage, gathered, &mut left, steps)? {
            Turned::Done => {
                let rest = Vec::new(alloc);
                return Ok(Explored { rest, up });
            }
            Turned::On(next) => stage = next,
            Turned::Tried(next) => {
                if left == 0 {
                    let parts = divided(alloc, work)?;
                    return Ok(Explored { rest: parts, up });
                }
                stage = next;
            }
        }
    }
}

/// Searches the task from left to right, until nothing of it is left, the budget of reductions is used up or the stop
/// word is up, and adds the leaves to what was gathered.
///
/// The stop word is loaded before each reduction, and after a load that saw it up no reduction is made. What is done
/// again to come to the task's place is no reduction of the search. The budget ends a search only right after an
/// alternative was tried, so that a long run of built-ins isn't begun again for ever; then a part of what is left is
/// split off for others, where there is one. Whether what was gathered is settled is for the caller to ask.
pub fn explore<M: SearchMachine, G: Gatherer, L: Ledger>(
    alloc: Global,
    walker: &mut Walker<M>,
    task: &Work,
    gathered: &mut G,
    budget: u32,
    stop: &Stop,
    seat: &mut StopSeat,
    steps: &mut Steps<L>,
) -> Result<Explored, AllocError>
    requires open { task.now ≢ None }
    requires budget { 1 ≤ budget }
    requires seat { IsSeatOf stop.now seat.old }
    requires under { IsUnderCall (M.clauses walker.old.machine) (G.call gathered.old) (M.place walker.old.machine)
        walker.old.path.items (work_by task.now) }
    ensures clauses { M.clauses walker.new.machine ≡ M.clauses walker.old.machine }
    ensures mode { G.mode gathered.new ≡ G.mode gathered.old }
    ensures call { G.call gathered.new ≡ G.call gathered.old }
    ensures stands { StaysOver (M.clauses walker.old.machine) (M.place walker.old.machine) walker.old.path.items
        (M.place walker.new.machine) walker.new.path.items }
    ensures gathered { IfOk result
        (λ e. HasGathered (M.clauses walker.old.machine) (G.mode gathered.old) (M.place walker.old.machine)
        walker.old.path.items (work_by task.now) (G.finding gathered.old) (map work_by e.rest.items)
        (G.finding gathered.new)) }
    ensures open { IfOk result (λ e. All (λ w. w ≢ None) e.rest.items) }
    ensures later { IfOk result (λ e. e.up ≡ No → All (λ w. IsLater (work_by w) (work_by task.now)) e.rest.items) }
    ensures budget { IfOk result (λ e. e.up ≡ No → e.rest.items ≢ [] → steps.old + budget ≤ steps.new) }
    ensures up { IfOk result (λ e. e.up ≡ up_of (saw_settled seat.new) (saw_dry seat.new)) }
    ensures seat { IsSeatOf stop.now seat.new }
    ensures seen { StillSeen seat.old seat.new }
    ensures loads { loads seat.old + steps.new < loads seat.new + steps.old }
    ensures late { has_seen seat.old ≡ false → late seat.new ≡ late seat.old }
    ensures seen_loads { has_seen seat.old ≡ true → loads seat.new ≡ loads seat.old + 1 }
    ensures seen_steps { has_seen seat.old ≡ true → steps.new ≡ steps.old }
    ensures seen_finding { has_seen seat.old ≡ true → G.finding gathered.new ≡ G.finding gathered.old }
    ensures seen_rest { has_seen seat.old ≡ true → IfOk result (λ e. e.rest.items ≡ task.now ∷ []) }
{
    let up = stop.is_up(seat);
    let mut work = task.copy()?;
    if up != Up::No {
        let rest = whole(alloc, work)?;
        return Ok(Explored { rest, up });
    }
    match arrive(walker, &mut work)? {
        Some(stage) => search(
            alloc, walker, work, stage, gathered, budget, stop, seat, steps,
        ),
        None => {
            let rest = Vec::new(alloc);
            Ok(Explored { rest, up })
        }
    }
}
