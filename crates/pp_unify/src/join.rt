//! Two lists of terms that are made equal, a goal's and a clause's head, walked in step where they stand.
ghost use Rattle.std.specs.Prelude.{◌≡◌, ℕ, ◌+◌, ◌<◌, ◌≤◌, ◌^◌, ◌↔◌, [], List, length, vec_len, vec_capacity, IfOk, IsTrue, All};
ghost use Rattle.pp_algebra.specs.Terms.{count, more, join};
ghost use Rattle.pp_algebra.specs.Least.{rest};
ghost use Rattle.pp_algebra.specs.Numbered.{counted_from};
ghost use Rattle.pp_row.specs.declared.cell.Cell.{Cell as CellValue};
ghost use Rattle.pp_row.specs.Reading.{IsForest, forest, from};
ghost use Rattle.pp_heap.specs.Values.{cell_at, term_at};
ghost use Rattle.pp_heap.specs.Stores.{store_of};
ghost use Rattle.pp_heap.specs.Soundness.{IsGood, IsCompound};
ghost use Rattle.pp_heap.specs.Outcomes.{IsGrown, IsValue};
ghost use Rattle.pp_heap.specs.Spans.{IsSpan, span_terms, terms_of};
ghost use Rattle.pp_unify.specs.Forests.{counted_all};
ghost use Rattle.pp_unify.specs.Heads.{IsHead, IsPiece, IsVariable};
ghost use Rattle.pp_unify.specs.Joining.{IsOnward, AreBelow, AreJoined, IsEntered};
ghost use Rattle.pp_unify.specs.Taking.{left_of, HasTaken, HasTakenSlot};

use crate::head::{add_up_to, add_variable, is_alike, meet_head, next_variable};
use crate::pair::Scratch;
use crate::terms::{leaf, leaf_slot};
use crate::unify::is_same;
use pp_heap::{Slot, Span, State, Value};
use pp_row::{Cell, end_of};
use std::alloc::AllocError;

/// What becomes of the next term of a goal that is met with the head's next one: they can't be equal, their first
/// cells are equal and the goal goes on at a place, or it is this value and the goal goes on at a place.
#[derive(Clone, Copy, Debug, PartialEq, Eq)]
pub(crate) enum Taken {
    Apart,
    Alike(usize),
    Value(Value, usize),
}

fn is_variable(cell: Cell) -> bool
    ensures { IsTrue result ↔ IsVariable cell }
{
    match cell {
        Cell::Var(_) => true,
        _ => false,
    }
}

/// Whether terms of one integer, one name, or one name and number of arguments begin at these cells.
fn are_alike(goal: &[Cell], at: usize, head: &[Cell], next: usize) -> bool
    requires goal { at < length goal.now }
    requires head { next < length head.now }
    ensures { IsTrue result → (cell_at goal.now at ≡ cell_at head.now next) × (IsVariable (cell_at goal.now at) → ⊥) }
{
    !is_variable(goal[at]) && is_same(goal[at], head[next])
}

/// Whether no terms that begin at these cells can be equal.
fn are_apart(goal: &[Cell], at: usize, head: &[Cell], next: usize) -> bool
    requires goal { at < length goal.now }
    requires head { next < length head.now }
    ensures { IsTrue result → (cell_at goal.now at ≡ cell_at head.now next → ⊥) × (IsVariable (cell_at goal.now at) → ⊥) × (IsVariable (cell_at head.now next) → ⊥) }
{
    !is_variable(goal[at]) && !is_variable(head[next]) && !is_same(goal[at], head[next])
}

/// The place of the next cell.
fn next_cell(cells: &[Cell], at: usize) -> usize
    requires within { at < length cells.now }
    ensures { result ≡ at + 1 }
{
    at + 1
}

/// Puts a compound of the goal to the heap.
fn goal_compound(
    state: &mut State,
    cells: &[Cell],
    at: usize,
    end: usize,
    first: u32,
) -> Result<Value, AllocError>
    requires good { IsGood state.old }
    requires goal { IsHead state.old.slots.items first cells.now }
    requires within { at < length cells.now }
    requires compound { IsCompound (cell_at cells.now at) }
    requires piece { IsPiece cells.now at end }
    ensures grown { IsGrown state.old state.new }
    ensures value { IfOk result (IsValue (store_of state.new) (counted_from first (term_at cells.now at))) }
{
    Ok(Value::Compound(state.grow(&cells[at..end], first)?))
}

/// Takes the goal's next term from where it stands.
fn take_goal(
    state: &mut State,
    goal: &[Cell],
    at: usize,
    first: u32,
    head: &[Cell],
    next: usize,
) -> Result<Taken, AllocError>
    requires good { IsGood state.old }
    requires goal { IsHead state.old.slots.items first goal.now }
    requires within { at < length goal.now }
    requires head { IsForest head.now }
    requires head_within { next < length head.now }
    ensures grown { IsGrown state.old state.new }
    ensures taken { IfOk result (HasTaken (counted_all first (from goal.now at)) state.new [] first goal.now head.now next) }
{
    if are_alike(goal, at, head, next) {
        return Ok(Taken::Alike(next_cell(goal, at)));
    }
    if are_apart(goal, at, head, next) {
        return Ok(Taken::Apart);
    }
    match leaf(state, goal, at, first) {
        Some(value) => Ok(Taken::Value(value, next_cell(goal, at))),
        None => {
            let end = end_of(goal, at);
            let value = goal_compound(state, goal, at, end, first)?;
            Ok(Taken::Value(value, end))
        }
    }
}

/// Takes the first term of a span, which was taken from the work; the goal's own terms go on at `at`.
fn take_span(
    state: &State,
    work: &mut Vec<Span>,
    span: Span,
    at: usize,
    head: &[Cell],
    next: usize,
) -> Result<Taken, AllocError>
    requires good { IsGood state.now }
    requires span { IsSpan state.now.heap.items span }
    requires all { All (IsSpan state.now.heap.items) work.old.items }
    requires room { vec_len work.old < vec_capacity work.old }
    requires head { IsForest head.now }
    requires within { next < length head.now }
    ensures all { IfOk result (λ _. All (IsSpan state.now.heap.items) work.new.items) }
    ensures taken { IfOk result (λ t. (n : ℕ) (goal : List CellValue) → HasTaken (join (more (term_at state.now.heap.items span.at) (join (rest (span_terms state.now.heap.items span)) (terms_of state.now.heap.items work.old.items))) (counted_all n (from goal at))) state.now work.new.items n goal head.now next t) }
{
    if is_alike(state, span.at, head, next) {
        state.push_inside(work, span)?;
        return Ok(Taken::Alike(at));
    }
    state.put_rest(work, span);
    Ok(Taken::Value(state.look(span.at), at))
}

/// Takes the next term of what is left of a goal: the work, and then its own terms from `at` on.
fn take_next(
    state: &mut State,
    work: &mut Vec<Span>,
    goal: &[Cell],
    at: usize,
    first: u32,
    head: &[Cell],
    next: usize,
) -> Result<Taken, AllocError>
    requires good { IsGood state.old }
    requires goal { IsHead state.old.slots.items first goal.now }
    requires all { All (IsSpan state.old.heap.items) work.old.items }
    requires head { IsForest head.now }
    requires within { next < length head.now }
    requires counts { count (left_of state.old work.old.items first goal.now at) ≡ count (from head.now next) }
    ensures grown { IsGrown state.old state.new }
    ensures all { IfOk result (λ _. All (IsSpan state.new.heap.items) work.new.items) }
    ensures taken { IfOk result (HasTaken (left_of state.old work.old.items first goal.now at) state.new work.new.items first goal.now head.now next) }
{
    match work.pop() {
        Some(span) => take_span(state, work, span, at, head, next),
        None => take_goal(state, goal, at, first, head, next),
    }
}

/// Takes the goal's next term from where it stands, as the slot of a variable that is bound to it.
fn take_goal_slot(
    state: &mut State,
    goal: &[Cell],
    at: usize,
    first: u32,
) -> Result<(Slot, usize), AllocError>
    requires good { IsGood state.old }
    requires goal { IsHead state.old.slots.items first goal.now }
    requires within { at < length goal.now }
    ensures grown { IsGrown state.old state.new }
    ensures taken { IfOk result (λ r. HasTakenSlot (counted_all first (from goal.now at)) state.new [] first goal.now r.0 r.1) }
{
    match leaf_slot(state, goal, at, first) {
        Some(slot) => Ok((slot, next_cell(goal, at))),
        None => {
            let end = end_of(goal, at);
            let value = goal_compound(state, goal, at, end, first)?;
            Ok((value.slot(), end))
        }
    }
}

/// Takes the next term of what is left of a goal, as the slot of a variable that is bound to it.
fn take_slot(
    state: &mut State,
    work: &mut Vec<Span>,
    goal: &[Cell],
    at: usize,
    first: u32,
) -> Result<(Slot, usize), AllocError>
    requires good { IsGood state.old }
    requires goal { IsHead state.old.slots.items first goal.now }
    requires all { All (IsSpan state.old.heap.items) work.old.items }
    requires some { 1 ≤ count (left_of state.old work.old.items first goal.now at) }
    ensures grown { IsGrown state.old state.new }
    ensures all { IfOk result (λ _. All (IsSpan state.new.heap.items) work.new.items) }
    ensures taken { IfOk result (λ r. HasTakenSlot (left_of state.old work.old.items first goal.now at) state.new work.new.items first goal.now r.0 r.1) }
{
    match work.pop() {
        Some(span) => {
            state.put_rest(work, span);
            Ok((state.slot_for_cell(span.at), at))
        }
        None => take_goal_slot(state, goal, at, first),
    }
}

/// Makes the terms of a goal and those of a head equal, whose variables are counted from these numbers; false
/// where nothing does. A variable of the head that has no slot gets one where it is met first. The work is a stack
/// that is kept from call to call for its memory alone, as are those of the scratch.
pub(crate) fn unify_lists(
    state: &mut State,
    scratch: &mut Scratch,
    work: &mut Vec<Span>,
    goal: &[Cell],
    first: u32,
    head: &[Cell],
    base: u32,
) -> Result<bool, AllocError>
    requires good { IsGood state.old }
    requires goal { IsHead state.old.slots.items first goal.now }
    requires head { IsForest head.now }
    requires fits { AreBelow (2 ^ 32) base head.now }
    requires width { count (forest head.now) ≡ count (forest goal.now) }
    ensures onward { IsOnward state.old state.new }
    ensures joined { IfOk result (AreJoined state.old state.new first goal.now base head.now) }
{
    work.clear();
    let mut at: usize = 0;
    let mut next: usize = 0;
    while next < head.len() {
        if let Some(number) = next_variable(state, head, next, base) {
            let (slot, on) = take_slot(state, work, goal, at, first)?;
            add_variable(state, number, slot)?;
            at = on;
            next += 1;
            continue;
        }
        match take_next(state, work, goal, at, first, head, next)? {
            Taken::Apart => return Ok(false),
            Taken::Alike(on) => {
                at = on;
                next += 1;
            }
            Taken::Value(value, on) => {
                at = on;
                match meet_head(state, scratch, work, value, head, next, base)? {
                    Some(after) => next = after,
                    None => return Ok(false),
                }
            }
        }
    }
    Ok(true)
}

/// Makes the terms of a goal and those of a head equal, whose variables, so many, are new; false where nothing
/// does.
pub(crate) fn enter(
    state: &mut State,
    scratch: &mut Scratch,
    work: &mut Vec<Span>,
    goal: &[Cell],
    first: u32,
    head: &[Cell],
    amount: u32,
) -> Result<bool, AllocError>
    requires good { IsGood state.old }
    requires goal { IsHead state.old.slots.items first goal.now }
    requires head { IsForest head.now }
    requires below { AreBelow amount 0 head.now }
    requires width { count (forest head.now) ≡ count (forest goal.now) }
    ensures onward { IsOnward state.old state.new }
    ensures entered { IfOk result (IsEntered state.old state.new first goal.now head.now amount) }
{
    let base = u32::try_from(state.slots.len()).map_err(|_| AllocError)?;
    let end = base.checked_add(amount).ok_or(AllocError)?;
    let equal = unify_lists(state, scratch, work, goal, first, head, base)?;
    if equal {
        add_up_to(state, end as usize)?;
    }
    Ok(equal)
}
