//! The clauses and the query that statements write.
ghost use Rattle.std.specs.Prelude.{◌≡◌, ◌+◌, ◌<◌, ◌^◌, All, IfOk, IsTrue, map, length};
ghost use Rattle.pp_algebra.specs.Canon.{has};
ghost use Rattle.pp_algebra.specs.Least.{arguments};
ghost use Rattle.pp_algebra.specs.Texts.{same_text};
ghost use Rattle.pp_language.specs.Printing.{name_at};
ghost use Rattle.pp_row.specs.Columns.{trees_of};
ghost use Rattle.pp_term.specs.Meanings.{predicate_of, goal_of};
ghost use Rattle.pp_query.specs.Meanings.{item_of};
ghost use Rattle.pp_build.specs.Pieces.{tree_at, predicate_of_tree};
ghost use Rattle.pp_build.specs.Values.{goal_from, item_from, HasCallableAt, IsGoalEntry, IsItemEntry};

use crate::goals::{goals, items};
use crate::terms::callable_at;
use pp_parse::{Entry, Part, Variables};
use pp_term::{Clause, Names, Numbers, Query};
use std::alloc::{AllocError, Global};

/// The clause with its head in the first place and with these items, over so many variables.
pub fn clause(
    alloc: Global,
    names: &Names,
    parts: &[Part],
    entries: Vec<Entry>,
    vars: u32,
) -> Result<Clause, AllocError>
    requires head { HasCallableAt names.now parts.now 0 }
    requires body { All (IsGoalEntry names.now parts.now) entries.items }
    ensures pred { IfOk result (λ c. predicate_of c.pred ≡ predicate_of_tree (tree_at parts.now 0)) }
    ensures head { IfOk result (λ c. trees_of c.head ≡ arguments (tree_at parts.now 0)) }
    ensures body { IfOk result (λ c. map goal_of c.body ≡ map (goal_from names.now parts.now) entries.items) }
    ensures vars { IfOk result (λ c. c.vars ≡ vars) }
{
    let (pred, head) = callable_at(alloc, parts, 0)?;
    let body = goals(alloc, names, parts, entries)?;
    Ok(Clause {
        pred,
        head,
        body,
        vars,
    })
}

/// The numbers of the texts among the names.
fn numbers(alloc: Global, names: &Names, texts: &Names) -> Result<Numbers, AllocError>
    requires known { All (λ x. IsTrue (has same_text names.now x)) texts.now }
    requires few { length texts.now < 2 ^ 32 }
    ensures { IfOk result (λ ns. map (name_at names.now) ns ≡ texts.now) }
{
    let mut numbers = Vec::with_capacity(alloc, texts.len())?;
    for i in 0..texts.len() as u32 {
        numbers.push(names.find(texts.text(i)).unwrap())?;
    }
    Ok(Numbers::from_vec(numbers))
}

/// The query with these items.
pub fn query(
    alloc: Global,
    names: &Names,
    variables: &Variables,
    parts: &[Part],
    entries: Vec<Entry>,
) -> Result<Query, AllocError>
    requires known { All (λ x. IsTrue (has same_text names.now x)) variables.now.named }
    requires few { length variables.now.named + variables.now.blanks < 2 ^ 32 }
    requires items { All (IsItemEntry names.now parts.now) entries.items }
    ensures vars { IfOk result (λ q. q.vars ≡ length variables.now.named + variables.now.blanks) }
    ensures named { IfOk result (λ q. map (name_at names.now) q.named ≡ variables.now.named) }
    ensures items { IfOk result (λ q. map item_of q.items ≡ map (item_from names.now parts.now) entries.items) }
{
    Ok(Query {
        vars: variables.named.len() as u32 + variables.blanks,
        named: numbers(alloc, names, &variables.named)?,
        items: items(alloc, names, parts, entries)?,
    })
}
