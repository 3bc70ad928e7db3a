//! Goals, items, clauses and queries, made of the parts of a sentence.
ghost use Rattle.std.specs.Prelude.{◌≡◌, ◌<◌, All, IfOk, map, length};
ghost use Rattle.pp_term.specs.Meanings.{predicate_of, shape_of, goal_of};
ghost use Rattle.pp_query.specs.Meanings.{item_of};
ghost use Rattle.pp_build.specs.Values.{shape_by, goal_from, item_from, HasCallableAt, IsGoalEntry, IsItemEntry};

use crate::terms::{callable_at, term_at};
use pp_parse::{Entry, Part};
use pp_term::{Goal, Goals, Item, Items, Names, Pred, Shape};
use std::alloc::{AllocError, Global};

/// What an atom with so many arguments calls.
fn shape(names: &Names, pred: Pred) -> Shape
    requires { pred.name < length names.now }
    ensures { shape_of result ≡ shape_by names.now (predicate_of pred) }
{
    let text = names.text(pred.name);
    match pred.arity {
        3 if text == b"plus".as_slice() => Shape::Plus,
        3 if text == b"times".as_slice() => Shape::Times,
        1 if text == b"indomain".as_slice() => Shape::Indomain,
        _ => Shape::User(pred),
    }
}

/// The goal of an item of a body.
fn goal(alloc: Global, names: &Names, parts: &[Part], entry: Entry) -> Result<Goal, AllocError>
    requires { IsGoalEntry names.now parts.now entry }
    ensures { IfOk result (λ g. goal_of g ≡ goal_from names.now parts.now entry) }
{
    match entry {
        Entry::Call(at) => {
            let (pred, terms) = callable_at(alloc, parts, at)?;
            Ok(Goal::Call(shape(names, pred), terms))
        }
        Entry::Equate(left, right) => {
            let left = term_at(alloc, parts, left)?;
            Ok(Goal::Equate(left, term_at(alloc, parts, right)?))
        }
        Entry::Member(at, set) => Ok(Goal::Member(term_at(alloc, parts, at)?, set)),
        Entry::Compare(relation, left, right) => {
            let left = term_at(alloc, parts, left)?;
            Ok(Goal::Compare(relation, left, term_at(alloc, parts, right)?))
        }
        Entry::Infer(_, _) => unreachable!(),
    }
}

/// The item of a query.
fn item(alloc: Global, names: &Names, parts: &[Part], entry: Entry) -> Result<Item, AllocError>
    requires { IsItemEntry names.now parts.now entry }
    ensures { IfOk result (λ i. item_of i ≡ item_from names.now parts.now entry) }
{
    match entry {
        Entry::Infer(at, mode) => {
            let (pred, terms) = callable_at(alloc, parts, at)?;
            Ok(Item::Infer(shape(names, pred), terms, mode))
        }
        Entry::Equate(left, right) => {
            let left = term_at(alloc, parts, left)?;
            Ok(Item::Equate(left, term_at(alloc, parts, right)?))
        }
        Entry::Member(at, set) => Ok(Item::Member(term_at(alloc, parts, at)?, set)),
        Entry::Call(_) => unreachable!(),
        Entry::Compare(_, _, _) => unreachable!(),
    }
}

/// The goals of the items of a body.
pub(crate) fn goals(
    alloc: Global,
    names: &Names,
    parts: &[Part],
    entries: Vec<Entry>,
) -> Result<Goals, AllocError>
    requires { All (IsGoalEntry names.now parts.now) entries.items }
    ensures { IfOk result (λ gs. map goal_of gs ≡ map (goal_from names.now parts.now) entries.items) }
{
    let mut goals = Vec::with_capacity(alloc, entries.len())?;
    for entry in entries {
        goals.push(goal(alloc, names, parts, entry)?)?;
    }
    Ok(Goals::from_vec(goals))
}

/// The items of a query.
pub(crate) fn items(
    alloc: Global,
    names: &Names,
    parts: &[Part],
    entries: Vec<Entry>,
) -> Result<Items, AllocError>
    requires { All (IsItemEntry names.now parts.now) entries.items }
    ensures { IfOk result (λ is. map item_of is ≡ map (item_from names.now parts.now) entries.items) }
{
    let mut items = Vec::with_capacity(alloc, entries.len())?;
    for entry in entries {
        items.push(item(alloc, names, parts, entry)?)?;
    }
    Ok(Items::from_vec(items))
}
