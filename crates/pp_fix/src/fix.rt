//! Turns until no goal waits, a goal fails, or so many were made.
ghost use Rattle.std.specs.Prelude.{◌≡◌, ◌≢◌, ◌≤◌, All, map, IfOk, OnErr};
ghost use Rattle.pp_language.specs.declared.limits.TheConstants.{WORKER_LIMIT};
ghost use Rattle.pp_propagation.specs.Watchers.{HasRoom};
ghost use Rattle.pp_algebra.specs.Terms.{count};
ghost use Rattle.pp_sld.specs.Verdicts.{HasVerdict};
ghost use Rattle.pp_term.specs.Meanings.{mode_of, program, shape_of};
ghost use Rattle.pp_term.specs.WellFormed.{IsQuery, arguments_of};
ghost use Rattle.pp_find.specs.Meanings.{verdict_by};
ghost use Rattle.pp_store.specs.Kept.{IsStoreOf};
ghost use Rattle.pp_store.specs.Queries.{goals_in};
ghost use Rattle.pp_fixpoint.specs.Fixpoints.{IsFixpoint, AreEnoughTurns};
ghost use Rattle.pp_fix.specs.Fixing.{IsFixed, IsBetweenTurns};
ghost use Rattle.pp_fix.specs.declared.fix.End.TheVariants.{Yes, Stopped};

use crate::commit::{Progress, commit};
use crate::search::{Question, asked, searched};
use crate::unfinished::listed;
use pp_clause::Clauses;
use pp_find::Verdict;
use pp_infer::infer_with;
use pp_language::Settings;
use pp_store::{GoalIndex, Store};
use pp_term::{Mode, Numbers, Query, Row, Shape};
use pp_wake::Wake;
use pp_watch::Watcher;
use pp_worker::Gate;
use std::alloc::{AllocError, Global};
use std::sync::Wait;
use std::thread::Threads;

/// How a run ends: no goal waits, a goal fails, or the turns are used up.
#[derive(Clone, Copy, Debug, PartialEq, Eq)]
pub enum End {
    Yes,
    No,
    Stopped,
}

/// How a run ended, how many turns it made, and the goals whose last verdict was that they are unfinished, ascending.
#[derive(Debug, Drop)]
pub struct Fixed {
    pub end: End,
    pub turns: u64,
    pub unfinished: Numbers,
}

/// Runs the goals from this store, at this depth and in so many turns at most.
fn run<F: Fn(Shape, Mode, Row) -> Result<Verdict, AllocError>>(
    find: F,
    alloc: Global,
    clauses: &Clauses,
    goals: &GoalIndex,
    store: &mut Store,
    depth: u32,
    turns: u64,
    watchers: &mut Vec<Box<dyn Watcher>>,
) -> Result<Fixed, AllocError>
    requires callable { (shape : _) (mode : _) (face : _) → count face.columns ≡ arguments_of shape
        → F.pre find shape mode face }
    requires finds { (shape : _) (mode : _) (face : _) (r : _) → count face.columns ≡ arguments_of shape
        → F.post find shape mode face r
        → IfOk r (λ v. HasVerdict (program clauses.now) depth (mode_of mode) (shape_of shape) face (verdict_by v)) }
    requires of_query { IsStoreOf goals.now store.old }
    requires room { All (λ w. HasRoom (state w)) watchers.old.items }
    ensures run { IfOk result (λ f.
        IsFixed (program clauses.now) (goals_in goals.now) depth turns store.old.row store.new.row
        (map (λ w. state w) watchers.old.items) (map (λ w. state w) watchers.new.items) f) }
    ensures whole { OnErr result (IsBetweenTurns (program clauses.now) (goals_in goals.now) depth turns store.old.row
        store.new.row
        (map (λ w. state w) watchers.old.items) (map (λ w. state w) watchers.new.items)) }
    ensures of_query { IsStoreOf goals.now store.new }
{
    let count = goals.count();
    // The room for the list is made before the first turn.
    let room = Vec::with_capacity(alloc, count as usize)?;
    let mut progress = Progress {
        wake: Wake::new(alloc, count)?,
        unfinished: vec![in alloc; false; count as usize]?,
    };
    for turn in 0..turns {
        let Some(goal) = progress.wake.take() else {
            return Ok(Fixed {
                end: End::Yes,
                turns: turn,
                unfinished: listed(room, progress.unfinished.as_slice()),
            });
        };
        let Question { shape, mode, face } = asked(goals, store, goal)?;
        let verdict = find(shape, mode, face)?;
        if !commit(
            goals,
            store,
            turn + 1,
            goal,
            verdict,
            &mut progress,
            watchers,
        )? {
            return Ok(Fixed {
                end: End::No,
                turns: turn + 1,
                unfinished: listed(room, progress.unfinished.as_slice()),
            });
        }
    }
    let end = match progress.wake.first(0) {
        None => End::Yes,
        Some(_) => End::Stopped,
    };
    Ok(Fixed {
        end,
        turns,
        unfinished: listed(room, progress.unfinished.as_slice()),
    })
}

/// Runs the query's goals from this store, at this depth and in so many turns at most, on one thread.
///
/// At each change the watchers note it in their order, and then the store is replaced. Where a goal fails, the store
/// is as before its turn. After want of memory it is the store after some whole turns.
pub fn fix_alone(
    alloc: Global,
    clauses: &Clauses,
    query: &Query,
    store: &mut Store,
    depth: u32,
    turns: u64,
    watchers: &mut Vec<Box<dyn Watcher>>,
) -> Result<Fixed, AllocError>
    requires query { IsQuery query.now }
    requires of_query { IsStoreOf query.now store.old }
    requires room { All (λ w. HasRoom (state w)) watchers.old.items }
    ensures run { IfOk result (λ f.
        IsFixed (program clauses.now) (goals_in query.now) depth turns store.old.row store.new.row
        (map (λ w. state w) watchers.old.items) (map (λ w. state w) watchers.new.items) f) }
    ensures fixpoint { IfOk result
        (λ f. f.end ≡ Yes → IsFixpoint (program clauses.now) (goals_in query.now) depth store.new.row f.unfinished) }
    ensures enough { IfOk result (λ f. AreEnoughTurns (goals_in query.now) store.old.row turns → f.end ≢ Stopped) }
    ensures whole { OnErr result (IsBetweenTurns (program clauses.now) (goals_in query.now) depth turns store.old.row
        store.new.row
        (map (λ w. state w) watchers.old.items) (map (λ w. state w) watchers.new.items)) }
    ensures of_query { IsStoreOf query.now store.new }
{
    let goals = GoalIndex::new(alloc, query)?;
    let find = |shape: Shape, mode: Mode, face: Row| -> Result<Verdict, AllocError>
        requires width { count face.columns ≡ arguments_of shape }
        ensures verdict { IfOk result (λ v.
            HasVerdict (program clauses.entry.now) depth (mode_of mode) (shape_of shape) face (verdict_by v)) }
    { searched(alloc, clauses, shape, mode, &face, depth) };
    run(find, alloc, clauses, &goals, store, depth, turns, watchers)
}

/// Runs the query's goals from this store under these settings, each goal searched by as many workers as they say.
/// Who takes part in a search is told by the gate. The run is that of one thread.
pub fn fix_with<G: Gate, R: Threads + Wait + Sync>(
    rt: &R,
    alloc: Global,
    clauses: &Clauses,
    query: &Query,
    store: &mut Store,
    settings: Settings,
    gate: &G,
    watchers: &mut Vec<Box<dyn Watcher>>,
) -> Result<Fixed, AllocError>
    requires query { IsQuery query.now }
    requires of_query { IsStoreOf query.now store.old }
    requires workers { (1 ≤ settings.workers) × (settings.workers ≤ WORKER_LIMIT) }
    requires room { All (λ w. HasRoom (state w)) watchers.old.items }
    ensures run { IfOk result (λ f.
        IsFixed (program clauses.now) (goals_in query.now) settings.depth settings.turns store.old.row store.new.row
        (map (λ w. state w) watchers.old.items) (map (λ w. state w) watchers.new.items) f) }
    ensures fixpoint { IfOk result
        (λ f. f.end ≡ Yes → IsFixpoint (program clauses.now) (goals_in query.now) settings.depth store.new.row
        f.unfinished) }
    ensures enough { IfOk result (λ f. AreEnoughTurns (goals_in query.now) store.old.row settings.turns
        → f.end ≢ Stopped) }
    ensures whole { OnErr result (IsBetweenTurns (program clauses.now) (goals_in query.now) settings.depth
        settings.turns store.old.row store.new.row
        (map (λ w. state w) watchers.old.items) (map (λ w. state w) watchers.new.items)) }
    ensures of_query { IsStoreOf query.now store.new }
{
    let goals = GoalIndex::new(alloc, query)?;
    let Settings {
        depth,
        turns,
        workers,
        ..
    } = settings;
    let find = |shape: Shape, mode: Mode, face: Row| -> Result<Verdict, AllocError>
        requires width { count face.columns ≡ arguments_of shape }
        requires workers { (1 ≤ workers) × (workers ≤ WORKER_LIMIT) }
        ensures verdict { IfOk result (λ v.
            HasVerdict (program clauses.entry.now) depth (mode_of mode) (shape_of shape) face (verdict_by v)) }
    { infer_with(rt, alloc, clauses, shape, mode, &face, depth, workers, gate) };
    run(find, alloc, clauses, &goals, store, depth, turns, watchers)
}
