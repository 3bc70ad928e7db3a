//! What a verdict makes of the store, of the goals that wait and of the watchers.
ghost use Rattle.std.specs.Prelude.{◌≡◌, ◌-◌, ◌⊎◌, All, IfOk, OnErr, OnOk, Some, [], not, set, length, map, nat_eq};
ghost use Rattle.pp_algebra.specs.Canon.{firsts};
ghost use Rattle.pp_algebra.specs.Terms.{count};
ghost use Rattle.pp_sld.specs.Verdicts.{narrow};
ghost use Rattle.pp_propagation.specs.Stores.{face, apply};
ghost use Rattle.pp_propagation.specs.Turns.{woken, store_after};
ghost use Rattle.pp_propagation.specs.Histories.{is_unfinished};
ghost use Rattle.pp_propagation.specs.Watchers.{HasRoom};
ghost use Rattle.pp_wake.specs.Waiting.{IsGoalOf};
ghost use Rattle.pp_store.specs.Kept.{IsStoreOf};
ghost use Rattle.pp_store.specs.Queries.{goals_in, IsGoalIn, AtGoal};
ghost use Rattle.pp_find.specs.Meanings.{verdict_by};
ghost use Rattle.pp_fix.specs.Committing.{IsWideAt, is_fail, waits_after, IsAfterTurn, HaveNotedTurn, IsBrokenOff};

use pp_find::Verdict;
use pp_store::{GoalIndex, Store};
use pp_term::Row;
use pp_wake::Wake;
use pp_watch::{Change, Watcher, note_all};
use std::alloc::AllocError;

/// What a run keeps beside its store: the goals that wait, and of each goal whether its last verdict was that it is
/// unfinished.
#[derive(Debug, Drop)]
pub(crate) struct Progress {
    pub wake: Wake,
    pub unfinished: Vec<bool>,
}

/// Wakes goals one after another.
fn wake_all(wake: &mut Wake, goals: &[u32])
    requires goals { All (IsGoalOf wake.old.goals) goals.now }
    ensures goals { wake.new.goals ≡ wake.old.goals }
    ensures waiting { wake.new.waiting ≡ firsts nat_eq wake.old.waiting goals.now }
{
    for goal in goals {
        wake.wake(*goal);
    }
}

/// Applies a row to a goal in place, and wakes the goals whose face that changed. After want of memory the row may be
/// applied.
fn narrow(
    goals: &GoalIndex,
    store: &mut Store,
    goal: u32,
    given: &Row,
    wake: &mut Wake,
) -> Result<(), AllocError>
    requires of_query { IsStoreOf goals.now store.old }
    requires goal { IsGoalIn goals.now goal }
    requires given { AtGoal goals.now goal (λ g. count given.now.columns ≡ length (face store.old.row g).domains) }
    requires goals { wake.old.goals ≡ length (goals_in goals.now) }
    ensures store { IfOk result (λ _. AtGoal goals.now goal (λ g. store.new.row ≡ apply store.old.row g given.now)) }
    ensures of_query { IsStoreOf goals.now store.new }
    ensures goals { wake.new.goals ≡ wake.old.goals }
    ensures waiting { IfOk result (λ _.
        wake.new.waiting ≡ firsts nat_eq wake.old.waiting
        (woken store.old.row store.new.row [] 1 (goals_in goals.now))) }
    ensures err { OnErr result ((store.new.row ≡ store.old.row)
        ⊎ AtGoal goals.now goal (λ g. store.new.row ≡ apply store.old.row g given.now)) }
{
    let changed = store.apply(goals, goal, given)?;
    wake_all(wake, changed.as_slice());
    Ok(())
}

/// The same before watchers, in the turn of this number: the row is applied to a copy, all of them note the change, and
/// then the store is replaced. After want of memory the store is as before.
fn narrow_watched(
    goals: &GoalIndex,
    store: &mut Store,
    turn: u64,
    goal: u32,
    given: Row,
    wake: &mut Wake,
    watchers: &mut Vec<Box<dyn Watcher>>,
) -> Result<(), AllocError>
    requires of_query { IsStoreOf goals.now store.old }
    requires goal { IsGoalIn goals.now goal }
    requires given { AtGoal goals.now goal (λ g. count given.columns ≡ length (face store.old.row g).domains) }
    requires goals { wake.old.goals ≡ length (goals_in goals.now) }
    requires room { All (λ w. HasRoom (state w)) watchers.old.items }
    ensures store { IfOk result (λ _. AtGoal goals.now goal (λ g. store.new.row ≡ apply store.old.row g given)) }
    ensures of_query { IsStoreOf goals.now store.new }
    ensures goals { wake.new.goals ≡ wake.old.goals }
    ensures waiting { IfOk result (λ _.
        wake.new.waiting ≡ firsts nat_eq wake.old.waiting
        (woken store.old.row store.new.row [] 1 (goals_in goals.now))) }
    ensures noted { OnOk result (HaveNotedTurn (goals_in goals.now)
        (record { turn = turn; goal = goal; verdict = narrow given }) store.old.row
        (map (λ w. state w) watchers.old.items) (map (λ w. state w) watchers.new.items)) }
    ensures err { OnErr result (IsBrokenOff (goals_in goals.now)
        (record { turn = turn; goal = goal; verdict = narrow given }) store.old.row store.new.row
        (map (λ w. state w) watchers.old.items) (map (λ w. state w) watchers.new.items)) }
{
    let mut next = store.copy()?;
    let changed = next.apply(goals, goal, &given)?;
    let change = Change {
        turn,
        goal,
        given,
        store: next.row()?,
    };
    note_all(watchers, &change)?;
    *store = next;
    wake_all(wake, changed.as_slice());
    Ok(())
}

/// Commits a verdict of the goal that was taken from the list, in the turn of this number; false where the goal fails.
/// After want of memory the store is the one before the turn, or the one after it.
pub(crate) fn commit(
    goals: &GoalIndex,
    store: &mut Store,
    turn: u64,
    goal: u32,
    verdict: Verdict,
    progress: &mut Progress,
    watchers: &mut Vec<Box<dyn Watcher>>,
) -> Result<bool, AllocError>
    requires of_query { IsStoreOf goals.now store.old }
    requires goal { IsGoalIn goals.now goal }
    requires wide { AtGoal goals.now goal (λ g. IsWideAt (face store.old.row g) (verdict_by verdict)) }
    requires goals { progress.old.wake.goals ≡ length (goals_in goals.now) }
    requires flags { length progress.old.unfinished.items ≡ length (goals_in goals.now) }
    requires room { All (λ w. HasRoom (state w)) watchers.old.items }
    ensures fails { IfOk result (λ b. b ≡ not (is_fail (verdict_by verdict))) }
    ensures store { IfOk result (λ _.
        AtGoal goals.now goal (λ g. store.new.row ≡ store_after store.old.row g (verdict_by verdict))) }
    ensures of_query { IsStoreOf goals.now store.new }
    ensures goals { progress.new.wake.goals ≡ progress.old.wake.goals }
    ensures waiting { IfOk result (λ _.
        progress.new.wake.waiting ≡ waits_after (goals_in goals.now) store.old.row store.new.row
        progress.old.wake.waiting (verdict_by verdict)) }
    ensures flags { IfOk result (λ _.
        progress.new.unfinished.items ≡ set progress.old.unfinished.items (goal - 1)
        (is_unfinished (Some (verdict_by verdict)))) }
    ensures noted { OnOk result (HaveNotedTurn (goals_in goals.now)
        (record { turn = turn; goal = goal; verdict = verdict_by verdict }) store.old.row
        (map (λ w. state w) watchers.old.items) (map (λ w. state w) watchers.new.items)) }
    ensures err { OnErr result (IsBrokenOff (goals_in goals.now)
        (record { turn = turn; goal = goal; verdict = verdict_by verdict }) store.old.row store.new.row
        (map (λ w. state w) watchers.old.items) (map (λ w. state w) watchers.new.items)) }
{
    progress.unfinished[goal as usize - 1] = matches!(verdict, Verdict::Unfinished);
    let wake = &mut progress.wake;
    match verdict {
        Verdict::Fail => return Ok(false),
        Verdict::Narrow(given) if watchers.is_empty() => narrow(goals, store, goal, &given, wake)?,
        Verdict::Narrow(given) => narrow_watched(goals, store, turn, goal, given, wake, watchers)?,
        Verdict::Same => {}
        Verdict::Nothing => {}
        Verdict::Unfinished => {}
    }
    Ok(true)
}
