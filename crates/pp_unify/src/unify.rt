//! Unification.
ghost use Rattle.std.specs.Prelude.{◌≡◌, ◌↔◌, ◌<◌, length, IfOk, IsTrue};
ghost use Rattle.pp_algebra.specs.Terms.{variable};
ghost use Rattle.pp_heap.specs.Values.{cell_at, term_at, value_term};
ghost use Rattle.pp_heap.specs.Stores.{store_of};
ghost use Rattle.pp_heap.specs.Soundness.{IsGood, IsFixed, IsCompound};
ghost use Rattle.pp_heap.specs.Outcomes.{IsNow, IsLater, IsVerdict};
ghost use Rattle.pp_unify.specs.Equating.{HasMet, met_by};
ghost use Rattle.pp_algebra.specs.Solve.{equation};

use crate::pair::{
    Pair, Scratch, are_alike, push_pair_arguments, push_pair_inside, push_pair_rest,
};
use pp_heap::{Span, State, Value};
use pp_row::Cell;
use std::alloc::AllocError;

/// What became of an equation of two terms: nothing makes them equal, they are equal, or the arguments of the
/// compounds at two places are left.
#[derive(Clone, Copy, Debug, PartialEq, Eq)]
pub(crate) enum Met {
    Apart,
    Done,
    Open(u32, u32),
}

/// `Done` where the answer is true.
fn outcome(answer: bool) -> Met
    ensures { result ≡ met_by answer }
{
    if answer { Met::Done } else { Met::Apart }
}

pub(crate) fn is_same(one: Cell, other: Cell) -> bool
    ensures { IsTrue result ↔ (one ≡ other) }
{
    one == other
}

pub(crate) fn is_same_value(one: Value, other: Value) -> bool
    ensures { IsTrue result ↔ (one ≡ other) }
{
    one == other
}

/// The equation of the terms at two places, but for their arguments.
fn meet(state: &mut State, spans: &mut Vec<Span>, left: u32, right: u32) -> Result<Met, AllocError>
    requires good { IsGood state.old }
    requires left { left < length state.old.heap.items }
    requires right { right < length state.old.heap.items }
    ensures later { IsLater state.old state.new }
    ensures met { IfOk result (HasMet state.old state.new (term_at state.old.heap.items left) (term_at state.old.heap.items right)) }
{
    let one = state.look(left);
    let other = state.look(right);
    equate(state, spans, one, other)
}

/// The same of two values.
fn equate(
    state: &mut State,
    spans: &mut Vec<Span>,
    one: Value,
    other: Value,
) -> Result<Met, AllocError>
    requires good { IsGood state.old }
    requires one { IsNow (store_of state.old) one }
    requires other { IsNow (store_of state.old) other }
    ensures later { IsLater state.old state.new }
    ensures met { IfOk result (HasMet state.old state.new (value_term state.old.heap.items one) (value_term state.old.heap.items other)) }
{
    match one {
        Value::Variable(left) => match other {
            Value::Variable(right) => Ok(outcome(state.merge(left, right)?)),
            _ => Ok(outcome(state.assign(left, other, spans)?)),
        },
        _ => match other {
            Value::Variable(right) => Ok(outcome(state.assign(right, one, spans)?)),
            _ => Ok(compare(state, one, other)),
        },
    }
}

/// The same of two values that are no variables.
fn compare(state: &State, one: Value, other: Value) -> Met
    requires good { IsGood state.now }
    requires one { IsFixed state.now.heap.items one }
    requires other { IsFixed state.now.heap.items other }
    ensures { HasMet state.now state.now (value_term state.now.heap.items one) (value_term state.now.heap.items other) result }
{
    match one {
        Value::Compound(left) => match other {
            Value::Compound(right) => compare_names(state, left, right),
            _ => Met::Apart,
        },
        _ => outcome(is_same_value(one, other)),
    }
}

/// The same of two compounds.
fn compare_names(state: &State, one: u32, other: u32) -> Met
    requires good { IsGood state.now }
    requires one { IsFixed state.now.heap.items (Value.Compound one) }
    requires other { IsFixed state.now.heap.items (Value.Compound other) }
    ensures { HasMet state.now state.now (term_at state.now.heap.items one) (term_at state.now.heap.items other) result }
{
    if is_same(state.heap[one as usize], state.heap[other as usize]) {
        Met::Open(one, other)
    } else {
        Met::Apart
    }
}

/// Makes two values equal; false where nothing does.
pub(crate) fn unify_values(
    state: &mut State,
    scratch: &mut Scratch,
    one: Value,
    other: Value,
) -> Result<bool, AllocError>
    requires good { IsGood state.old }
    requires one { IsNow (store_of state.old) one }
    requires other { IsNow (store_of state.old) other }
    ensures later { IsLater state.old state.new }
    ensures verdict { IfOk result (IsVerdict state.old state.new (equation (value_term state.old.heap.items one) (value_term state.old.heap.items other))) }
{
    match equate(state, &mut scratch.spans, one, other)? {
        Met::Apart => Ok(false),
        Met::Done => Ok(true),
        Met::Open(left, right) => {
            unify_arguments(state, &mut scratch.pairs, &mut scratch.spans, left, right)
        }
    }
}

/// Makes the compounds at two places equal, which have one name and number of arguments; false where nothing
/// does.
fn unify_arguments(
    state: &mut State,
    work: &mut Vec<Pair>,
    spans: &mut Vec<Span>,
    left: u32,
    right: u32,
) -> Result<bool, AllocError>
    requires good { IsGood state.old }
    requires left { left < length state.old.heap.items }
    requires right { right < length state.old.heap.items }
    requires same { cell_at state.old.heap.items left ≡ cell_at state.old.heap.items right }
    requires compound { IsCompound (cell_at state.old.heap.items left) }
    ensures later { IsLater state.old state.new }
    ensures verdict { IfOk result (IsVerdict state.old state.new (equation (term_at state.old.heap.items left) (term_at state.old.heap.items right))) }
{
    work.clear();
    push_pair_arguments(state, work, left, right)?;
    while let Some(pair) = work.pop() {
        if are_alike(state, pair.left, pair.right) {
            push_pair_inside(state, work, pair)?;
            continue;
        }
        push_pair_rest(state, work, pair)?;
        match meet(state, spans, pair.left, pair.right)? {
            Met::Apart => return Ok(false),
            Met::Done => {}
            Met::Open(one, other) => push_pair_arguments(state, work, one, other)?,
        }
    }
    Ok(true)
}

/// Makes two variables equal; false where nothing does.
pub(crate) fn unify_variables(
    state: &mut State,
    scratch: &mut Scratch,
    one: u32,
    other: u32,
) -> Result<bool, AllocError>
    requires good { IsGood state.old }
    requires one { one < length state.old.slots.items }
    requires other { other < length state.old.slots.items }
    ensures later { IsLater state.old state.new }
    ensures verdict { IfOk result (IsVerdict state.old state.new (equation (variable one) (variable other))) }
{
    let left = state.value_of(one);
    let right = state.value_of(other);
    unify_values(state, scratch, left, right)
}
