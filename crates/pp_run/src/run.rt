// The run of a program.
ghost use Rattle.std.specs.Prelude.{◌≡◌, ◌≤◌, All, map, IfOk, OnErr};
ghost use Rattle.pp_propagation.specs.Watchers.{HasRoom};
ghost use Rattle.pp_term.specs.Meanings.{program};
ghost use Rattle.pp_term.specs.WellFormed.{IsClause, IsQuery};
ghost use Rattle.pp_store.specs.Queries.{query_by};
ghost use Rattle.pp_run.specs.Made.{IsRan, HasNotedOf, no_ran};

use pp_clause::Clauses;
use pp_fix::{End, Fixed, fix_alone, fix_with};
use pp_language::{Command, CommandKind, Settings, WORKER_LIMIT};
use pp_read::ClauseList;
use pp_store::Store;
use pp_term::{Numbers, Query, Row};
use pp_watch::Watcher;
use pp_worker::Gate;
use std::alloc::{AllocError, Global};
use std::sync::Wait;
use std::thread::Threads;

/// How a run ended, and in which store.
#[derive(Debug, Drop)]
pub(crate) struct Ran {
    pub fixed: Fixed,
    pub row: Row,
}

/// The table of these clauses.
fn table_of(alloc: Global, clauses: ClauseList) -> Result<Clauses, AllocError>
    requires { All IsClause clauses }
    ensures { IfOk result (λ table. table ≡ clauses) }
{
    let mut table = Clauses::new(alloc);
    for clause in clauses.into_vec() {
        table.add(clause)?;
    }
    Ok(table)
}

/// The run of a query whose equations and domain items have no solution.
fn no_run(alloc: Global) -> Ran
    ensures { result ≡ no_ran }
{
    Ran {
        fixed: Fixed {
            end: End::No,
            turns: 0,
            unfinished: Numbers::from_vec(Vec::new(alloc)),
        },
        row: Row::from_numbered(Vec::new(alloc), Vec::new(alloc)),
    }
}

/// The run of a query over these clauses, under these settings, on one thread.
pub(crate) fn run_alone(
    alloc: Global,
    settings: Settings,
    clauses: ClauseList,
    query: &Query,
    watchers: &mut Vec<Box<dyn Watcher>>,
) -> Result<Ran, AllocError>
    requires clauses { All IsClause clauses }
    requires query { IsQuery query.now }
    requires room { All (λ w. HasRoom (state w)) watchers.old.items }
    ensures run { IfOk result (IsRan (program clauses) (query_by query.now) settings
        (map (λ w. state w) watchers.old.items) (map (λ w. state w) watchers.new.items)) }
    ensures noted { OnErr result (HasNotedOf (program clauses) (query_by query.now) settings
        (map (λ w. state w) watchers.old.items) (map (λ w. state w) watchers.new.items)) }
{
    let Settings { depth, turns, .. } = settings;
    let table = table_of(alloc, clauses)?;
    let mut store = match Store::begin(alloc, query)? {
        None => return Ok(no_run(alloc)),
        Some(store) => store,
    };
    let fixed = fix_alone(alloc, &table, query, &mut store, depth, turns, watchers)?;
    let row = store.row()?;
    Ok(Ran { fixed, row })
}

/// The same run, with as many workers as the settings say, who pass the gate.
fn run_with<R: Threads + Wait + Sync, G: Gate>(
    rt: &R,
    alloc: Global,
    settings: Settings,
    clauses: ClauseList,
    query: &Query,
    gate: &G,
    watchers: &mut Vec<Box<dyn Watcher>>,
) -> Result<Ran, AllocError>
    requires clauses { All IsClause clauses }
    requires query { IsQuery query.now }
    requires workers { (1 ≤ settings.workers) × (settings.workers ≤ WORKER_LIMIT) }
    requires room { All (λ w. HasRoom (state w)) watchers.old.items }
    ensures run { IfOk result (IsRan (program clauses) (query_by query.now) settings
        (map (λ w. state w) watchers.old.items) (map (λ w. state w) watchers.new.items)) }
    ensures noted { OnErr result (HasNotedOf (program clauses) (query_by query.now) settings
        (map (λ w. state w) watchers.old.items) (map (λ w. state w) watchers.new.items)) }
{
    let table = table_of(alloc, clauses)?;
    let mut store = match Store::begin(alloc, query)? {
        None => return Ok(no_run(alloc)),
        Some(store) => store,
    };
    let fixed = fix_with(
        rt, alloc, &table, query, &mut store, settings, gate, watchers,
    )?;
    let row = store.row()?;
    Ok(Ran { fixed, row })
}

/// The run of a command, which for `alone` is made on one thread.
pub(crate) fn run_by<R: Threads + Wait + Sync, G: Gate>(
    rt: &R,
    alloc: Global,
    command: Command,
    clauses: ClauseList,
    query: &Query,
    gate: &G,
    watchers: &mut Vec<Box<dyn Watcher>>,
) -> Result<Ran, AllocError>
    requires clauses { All IsClause clauses }
    requires query { IsQuery query.now }
    requires workers { (1 ≤ command.settings.workers) × (command.settings.workers ≤ WORKER_LIMIT) }
    requires room { All (λ w. HasRoom (state w)) watchers.old.items }
    ensures run { IfOk result (IsRan (program clauses) (query_by query.now) command.settings
        (map (λ w. state w) watchers.old.items) (map (λ w. state w) watchers.new.items)) }
    ensures noted { OnErr result (HasNotedOf (program clauses) (query_by query.now) command.settings
        (map (λ w. state w) watchers.old.items) (map (λ w. state w) watchers.new.items)) }
{
    let settings = command.settings;
    match command.kind {
        CommandKind::Alone => run_alone(alloc, settings, clauses, query, watchers),
        CommandKind::Run | CommandKind::Make(_) => {
            run_with(rt, alloc, settings, clauses, query, gate, watchers)
        }
    }
}
