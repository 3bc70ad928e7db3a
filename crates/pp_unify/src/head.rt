//! A value against a clause's head, where it stands: of the head, only what a variable is bound to is copied.
ghost use Rattle.std.specs.Prelude.{◌≡◌, ℕ, ◌+◌, ◌<◌, ◌≤◌, ◌^◌, length, IfOk, IfSome, IsTrue, true, false, All};
ghost use Rattle.pp_algebra.specs.Terms.{int, node, none, variable, more, join};
ghost use Rattle.pp_algebra.specs.Least.{rest};
ghost use Rattle.pp_algebra.specs.Members.{IsInteger};
ghost use Rattle.pp_algebra.specs.Solve.{equation};
ghost use Rattle.pp_row.specs.Reading.{IsForest};
ghost use Rattle.pp_heap.specs.Values.{cell_at, slot_at, slot_of, term_at, value_term};
ghost use Rattle.pp_heap.specs.declared.state.Value.{Value};
ghost use Rattle.pp_heap.specs.Stores.{store_of};
ghost use Rattle.pp_heap.specs.Soundness.{IsGood, IsCompound};
ghost use Rattle.pp_heap.specs.Outcomes.{IsNow, IsUnbound, IsLater, IsVerdict};
ghost use Rattle.pp_heap.specs.Spans.{IsSpan, span_terms, terms_of};
ghost use Rattle.pp_unify.specs.Heads.{IsPiece, IsNext, IsSlotNow, IsGround, AreGround, MeetsVariable, HasTurned, HasStepped, HasMetVariable};
ghost use Rattle.pp_unify.specs.Joining.{IsOnward, AreBelow, IsRaised};

use crate::pair::Scratch;
use crate::terms::add_bound;
use crate::unify::{is_same, is_same_value, unify_values};
use pp_heap::{Slot, Span, State, Value};
use pp_row::{Cell, end_of};
use std::alloc::AllocError;

/// Adds variables until there are so many.
pub(crate) fn add_up_to(state: &mut State, amount: usize) -> Result<(), AllocError>
    requires good { IsGood state.old }
    ensures onward { IsOnward state.old state.new }
    ensures raised { IfOk result (λ _. IsRaised state.old state.new amount) }
{
    let now = state.slots.len();
    if now < amount {
        let missing = u32::try_from(amount - now).map_err(|_| AllocError)?;
        state.add_many(missing)?;
    }
    Ok(())
}

/// The number of the head's variable that stands here, where it is the next one to get a slot.
pub(crate) fn next_variable(state: &State, cells: &[Cell], at: usize, first: u32) -> Option<u32>
    requires fits { AreBelow (2 ^ 32) first cells.now }
    requires within { at < length cells.now }
    ensures { IfSome result (IsNext state.now first cells.now at) }
{
    let Cell::Var(variable) = cells[at] else {
        return None;
    };
    let number = first + variable;
    if number as usize == state.slots.len() {
        Some(number)
    } else {
        None
    }
}

/// Gives the next variable, of this number, a slot, with no occurs check: no term can have it in it.
pub(crate) fn add_variable(state: &mut State, number: u32, slot: Slot) -> Result<(), AllocError>
    requires good { IsGood state.old }
    requires next { number ≡ length state.old.slots.items }
    requires slot { IsSlotNow (store_of state.old) slot }
    ensures onward { IsOnward state.old state.new }
    ensures met { IfOk result (λ _. (c : Value) → slot ≡ slot_of c → IsNow (store_of state.old) c → MeetsVariable state.old state.new (value_term state.old.heap.items c) number) }
{
    state.define_slot(number, slot)?;
    Ok(())
}

/// Makes a value and a variable of the head equal; false where nothing does. A variable without a slot gets one
/// and is bound without an occurs check: no term can have it in it.
fn meet_variable(
    state: &mut State,
    scratch: &mut Scratch,
    value: Value,
    number: u32,
) -> Result<bool, AllocError>
    requires good { IsGood state.old }
    requires value { IsNow (store_of state.old) value }
    ensures onward { IsOnward state.old state.new }
    ensures met { IfOk result (HasMetVariable state.old state.new (value_term state.old.heap.items value) number) }
{
    if (number as usize) < state.slots.len() {
        let known = state.value_of(number);
        unify_values(state, scratch, value, known)
    } else {
        add_up_to(state, number as usize)?;
        add_bound(state, value)?;
        Ok(true)
    }
}

/// Makes a value and an integer equal; false where nothing does.
fn meet_int(state: &mut State, value: Value, known: i64) -> Result<bool, AllocError>
    requires good { IsGood state.old }
    requires value { IsNow (store_of state.old) value }
    requires integer { IsInteger known }
    ensures later { IsLater state.old state.new }
    ensures verdict { IfOk result (IsVerdict state.old state.new (equation (value_term state.old.heap.items value) (int known))) }
{
    match value {
        Value::Variable(free) => state.assign_int(free, known),
        _ => Ok(is_same_value(value, Value::Int(known))),
    }
}

/// Makes a value and an atom equal; false where nothing does.
fn meet_atom(state: &mut State, value: Value, name: u32) -> Result<bool, AllocError>
    requires good { IsGood state.old }
    requires value { IsNow (store_of state.old) value }
    ensures later { IsLater state.old state.new }
    ensures verdict { IfOk result (IsVerdict state.old state.new (equation (value_term state.old.heap.items value) (node name none))) }
{
    match value {
        Value::Variable(free) => state.assign_atom(free, name),
        _ => Ok(is_same_value(value, Value::Atom(name))),
    }
}

/// Makes a value and a term of the head that is no compound equal; false where nothing does.
fn meet_leaf(
    state: &mut State,
    scratch: &mut Scratch,
    value: Value,
    cells: &[Cell],
    at: usize,
    first: u32,
) -> Result<bool, AllocError>
    requires good { IsGood state.old }
    requires value { IsNow (store_of state.old) value }
    requires head { IsForest cells.now }
    requires fits { AreBelow (2 ^ 32) first cells.now }
    requires within { at < length cells.now }
    requires plain { IsCompound (cell_at cells.now at) → ⊥ }
    ensures onward { IsOnward state.old state.new }
    ensures stepped { IfOk result (HasStepped state.old state.new (value_term state.old.heap.items value) first cells.now at) }
{
    match cells[at] {
        Cell::Int(known) => meet_int(state, value, known),
        Cell::Atom(name) => meet_atom(state, value, name),
        Cell::Compound(_, _) => Ok(false),
        Cell::Var(variable) => meet_variable(state, scratch, value, first + variable),
    }
}

fn is_ground(slot: Slot) -> bool
    ensures { IsTrue result → IsGround slot }
{
    match slot {
        Slot::Int(_) | Slot::Atom(_) => true,
        _ => false,
    }
}

/// Whether a variable is bound to an integer or an atom, where it has a slot.
fn is_ground_or_new(state: &State, number: u32) -> bool
    ensures { IsTrue result → number < length state.now.slots.items → IsGround (slot_at state.now.slots.items number) }
{
    (number as usize) >= state.slots.len() || is_ground(state.slots[number as usize])
}

/// How many variables there are up to the last one of these cells, none where there is no variable in them, and
/// whether all of them that have a slot are bound to an integer or an atom there.
fn survey(state: &State, cells: &[Cell], first: u32) -> (usize, bool)
    requires fits { AreBelow (2 ^ 32) first cells.now }
    ensures below { AreBelow result.0 first cells.now }
    ensures least { (n : ℕ) → AreBelow n first cells.now → result.0 ≤ n }
    ensures ground { IsTrue result.1 → AreGround state.now.slots.items first cells.now }
{
    let mut end: usize = 0;
    let mut ground = true;
    for cell in cells {
        if let Cell::Var(variable) = *cell {
            end = end.max((first + variable) as usize + 1);
            ground = ground && is_ground_or_new(state, first + variable);
        }
    }
    (end, ground)
}

/// Binds a free variable to a compound of the head, which is put to the heap; false where nothing makes them
/// equal.
fn bind_copy(
    state: &mut State,
    scratch: &mut Scratch,
    free: u32,
    cells: &[Cell],
    at: usize,
    end: usize,
    first: u32,
) -> Result<bool, AllocError>
    requires good { IsGood state.old }
    requires unbound { IsUnbound (store_of state.old) free }
    requires head { IsForest cells.now }
    requires fits { AreBelow (2 ^ 32) first cells.now }
    requires within { at < length cells.now }
    requires compound { IsCompound (cell_at cells.now at) }
    requires piece { IsPiece cells.now at end }
    ensures onward { IsOnward state.old state.new }
    ensures stepped { IfOk result (HasStepped state.old state.new (variable free) first cells.now at) }
{
    let copied = &cells[at..end];
    let (amount, apart) = survey(state, copied, first);
    add_up_to(state, amount)?;
    let place = state.grow(copied, first)?;
    if apart {
        state.assign_apart(free, place)
    } else {
        state.assign_compound(free, place, &mut scratch.spans)
    }
}

/// Makes a value and a compound of the head equal, but for the arguments of a compound, which the work has more;
/// answers where the head goes on.
fn meet_compound(
    state: &mut State,
    scratch: &mut Scratch,
    work: &mut Vec<Span>,
    value: Value,
    cells: &[Cell],
    at: usize,
    first: u32,
) -> Result<Option<usize>, AllocError>
    requires good { IsGood state.old }
    requires value { IsNow (store_of state.old) value }
    requires head { IsForest cells.now }
    requires fits { AreBelow (2 ^ 32) first cells.now }
    requires within { at < length cells.now }
    requires compound { IsCompound (cell_at cells.now at) }
    requires all { All (IsSpan state.old.heap.items) work.old.items }
    ensures onward { IsOnward state.old state.new }
    ensures turned { IfOk result (HasTurned state.old state.new (more (value_term state.old.heap.items value) (terms_of state.old.heap.items work.old.items)) work.new.items first cells.now at) }
{
    match value {
        Value::Compound(place) => {
            if is_same(state.heap[place as usize], cells[at]) {
                state.push_arguments(work, place)?;
                Ok(Some(at + 1))
            } else {
                Ok(None)
            }
        }
        Value::Variable(free) => {
            let end = end_of(cells, at);
            if bind_copy(state, scratch, free, cells, at, end, first)? {
                Ok(Some(end))
            } else {
                Ok(None)
            }
        }
        _ => Ok(None),
    }
}

/// Whether a compound begins at this cell.
fn is_compound(cells: &[Cell], at: usize) -> bool
    requires within { at < length cells.now }
    ensures yes { result ≡ true → IsCompound (cell_at cells.now at) }
    ensures no { result ≡ false → IsCompound (cell_at cells.now at) → ⊥ }
{
    match cells[at] {
        Cell::Compound(_, _) => true,
        _ => false,
    }
}

/// Makes a value and a term of the head equal, but for the arguments of a compound, which the work has more;
/// answers where the head goes on.
pub(crate) fn meet_head(
    state: &mut State,
    scratch: &mut Scratch,
    work: &mut Vec<Span>,
    value: Value,
    cells: &[Cell],
    at: usize,
    first: u32,
) -> Result<Option<usize>, AllocError>
    requires good { IsGood state.old }
    requires value { IsNow (store_of state.old) value }
    requires head { IsForest cells.now }
    requires fits { AreBelow (2 ^ 32) first cells.now }
    requires within { at < length cells.now }
    requires all { All (IsSpan state.old.heap.items) work.old.items }
    ensures onward { IsOnward state.old state.new }
    ensures turned { IfOk result (HasTurned state.old state.new (more (value_term state.old.heap.items value) (terms_of state.old.heap.items work.old.items)) work.new.items first cells.now at) }
{
    if is_compound(cells, at) {
        meet_compound(state, scratch, work, value, cells, at, first)
    } else if meet_leaf(state, scratch, value, cells, at, first)? {
        Ok(Some(at + 1))
    } else {
        Ok(None)
    }
}

/// Whether compounds of one name and number of arguments begin at a place of the heap and at one of the head.
pub(crate) fn is_alike(state: &State, place: u32, cells: &[Cell], at: usize) -> bool
    requires place { place < length state.now.heap.items }
    requires at { at < length cells.now }
    ensures { IsTrue result → (cell_at state.now.heap.items place ≡ cell_at cells.now at) × IsCompound (cell_at state.now.heap.items place) }
{
    state.is_compound(place) && is_same(state.heap[place as usize], cells[at])
}
