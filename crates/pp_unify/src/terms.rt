//! Terms from outside, with all bindings in place.
ghost use Rattle.std.specs.Prelude.{◌≡◌, ℕ, ◌<◌, ◌++◌, length, IfOk, MatchOption, map, Option, option_map};
ghost use Rattle.pp_algebra.specs.Terms.{int, put, variable};
ghost use Rattle.pp_algebra.specs.Members.{IsInteger};
ghost use Rattle.pp_domain.specs.Sets.{set_of};
ghost use Rattle.pp_row.specs.Columns.{sets_of};
ghost use Rattle.pp_heap.specs.Values.{slot_at, slot_domain, cell_at, term_at, value_term};
ghost use Rattle.pp_heap.specs.Stores.{store_of, solution};
ghost use Rattle.pp_algebra.specs.Solve.{equation, membership};
ghost use Rattle.pp_heap.specs.Agreement.{Follows};
ghost use Rattle.pp_heap.specs.Soundness.{IsGood, IsKept, IsPlace, IsCompound};
ghost use Rattle.pp_heap.specs.Outcomes.{IsGrown, IsValue, IsNow, IsAddedAs, IsLater, IsVerdict};
ghost use Rattle.pp_algebra.specs.Numbered.{counted_from};
ghost use Rattle.pp_unify.specs.States.{first_cell};
ghost use Rattle.pp_unify.specs.Tops.{IsAmong, IsTop, cells_under};
ghost use Rattle.pp_unify.specs.Heads.{IsHead, IsLeaf, IsLeafSlot};

use crate::pair::Scratch;
use crate::unify::unify_values;
use crate::writing::resolve;
use indexmap::IndexSet;
use pp_domain::Domain;
use pp_heap::{Slot, State, Value};
use pp_row::{Cell, Term};
use std::alloc::AllocError;

/// A copy of a domain, where there is one.
fn copied(domain: Option<&Domain>) -> Result<Option<Domain>, AllocError>
    ensures { IfOk result (λ d. d ≡ option_map (λ e. e.now) domain.entry) }
{
    match domain {
        Some(domain) => Ok(Some(domain.copy()?)),
        None => Ok(None),
    }
}

/// What a term is that is no compound.
pub(crate) fn leaf(state: &State, cells: &[Cell], at: usize, first: u32) -> Option<Value>
    requires good { IsGood state.now }
    requires head { IsHead state.now.slots.items first cells.now }
    requires within { at < length cells.now }
    ensures { MatchOption result (IsCompound (cell_at cells.now at)) (IsLeaf (store_of state.now) first cells.now at) }
{
    match cells[at] {
        Cell::Int(value) => Some(Value::Int(value)),
        Cell::Atom(name) => Some(Value::Atom(name)),
        Cell::Compound(_, _) => None,
        Cell::Var(variable) => Some(state.value_of(first + variable)),
    }
}

/// The slot of a variable that is bound to a term that is no compound.
pub(crate) fn leaf_slot(state: &State, cells: &[Cell], at: usize, first: u32) -> Option<Slot>
    requires good { IsGood state.now }
    requires head { IsHead state.now.slots.items first cells.now }
    requires within { at < length cells.now }
    ensures { MatchOption result (IsCompound (cell_at cells.now at)) (IsLeafSlot (store_of state.now) first cells.now at) }
{
    match cells[at] {
        Cell::Int(value) => Some(Slot::Int(value)),
        Cell::Atom(name) => Some(Slot::Atom(name)),
        Cell::Compound(_, _) => None,
        Cell::Var(variable) => Some(state.slot_for_variable(first + variable)),
    }
}

/// The top of the term at this place. Of a compound it doesn't say where it stands.
pub(crate) fn top(state: &State, cells: &[Cell], at: usize, first: u32) -> Value
    requires good { IsGood state.now }
    requires head { IsHead state.now.slots.items first cells.now }
    requires within { at < length cells.now }
    ensures { IsTop state.now.slots.items (put (solution state.now) (counted_from first (term_at cells.now at))) result }
{
    match leaf(state, cells, at, first) {
        Some(value) => value,
        None => Value::Compound(0),
    }
}

/// The first cell of a value; a free variable has none.
fn cell_of(state: &State, value: Value) -> Option<Cell>
    requires good { IsGood state.now }
    requires now { IsNow (store_of state.now) value }
    ensures { result ≡ first_cell (put (solution state.now) (value_term state.now.heap.items value)) }
{
    match value {
        Value::Variable(_) => None,
        Value::Int(value) => Some(Cell::Int(value)),
        Value::Atom(name) => Some(Cell::Atom(name)),
        Value::Compound(place) => Some(state.heap[place as usize]),
    }
}

/// The first cell of the term at this place, with all bindings in place; a free variable has none.
pub(crate) fn first_cell(state: &State, cells: &[Cell], at: usize, first: u32) -> Option<Cell>
    requires good { IsGood state.now }
    requires head { IsHead state.now.slots.items first cells.now }
    requires within { at < length cells.now }
    ensures { result ≡ first_cell (put (solution state.now) (counted_from first (term_at cells.now at))) }
{
    match cells[at] {
        Cell::Var(variable) => cell_of(state, state.value_of(first + variable)),
        cell => Some(cell),
    }
}

/// Makes the term at this place be in a domain; false where nothing does.
pub(crate) fn narrow(
    state: &mut State,
    cells: &[Cell],
    at: usize,
    first: u32,
    domain: &Domain,
) -> Result<bool, AllocError>
    requires good { IsGood state.old }
    requires head { IsHead state.old.slots.items first cells.now }
    requires within { at < length cells.now }
    ensures later { IsLater state.old state.new }
    ensures verdict { IfOk result (IsVerdict state.old state.new (membership (counted_from first (term_at cells.now at)) (set_of domain.now))) }
{
    let Some(known) = leaf(state, cells, at, first) else {
        return Ok(false);
    };
    match known {
        Value::Variable(free) => state.narrow(free, domain),
        Value::Int(value) => Ok(domain.has(value)),
        _ => Ok(false),
    }
}

/// Makes the term at this place an integer; false where nothing does.
pub(crate) fn equate(
    state: &mut State,
    scratch: &mut Scratch,
    cells: &[Cell],
    at: usize,
    first: u32,
    value: i64,
) -> Result<bool, AllocError>
    requires good { IsGood state.old }
    requires head { IsHead state.old.slots.items first cells.now }
    requires within { at < length cells.now }
    requires integer { IsInteger value }
    ensures later { IsLater state.old state.new }
    ensures verdict { IfOk result (IsVerdict state.old state.new (equation (counted_from first (term_at cells.now at)) (int value))) }
{
    match leaf(state, cells, at, first) {
        Some(known) => unify_values(state, scratch, known, Value::Int(value)),
        None => Ok(false),
    }
}

/// What a term is whose variables are counted from `first`. A compound is put to the heap.
pub(crate) fn entered(state: &mut State, term: &Term, first: u32) -> Result<Value, AllocError>
    requires good { IsGood state.old }
    requires among { IsAmong state.old.slots.items (counted_from first term.now) }
    ensures grown { IsGrown state.old state.new }
    ensures value { IfOk result (IsValue (store_of state.new) (counted_from first term.now)) }
{
    let cells = term.cells();
    match cells[0] {
        Cell::Int(value) => Ok(Value::Int(value)),
        Cell::Atom(name) => Ok(Value::Atom(name)),
        Cell::Compound(_, _) => Ok(Value::Compound(state.grow(cells, first)?)),
        Cell::Var(variable) => Ok(state.value_of(first + variable)),
    }
}

/// Puts the cell, or the cells of its variable's term, after `out`.
fn resolve_cell(state: &State, cell: Cell, out: &mut Vec<Cell>) -> Result<(), AllocError>
    requires good { IsGood state.now }
    requires within { (v : ℕ) → cell ≡ Cell.Var v → v < length state.now.slots.items }
    ensures { IfOk result (λ _. out.new.items ≡ out.old.items ++ cells_under (solution state.now) cell) }
{
    match cell {
        Cell::Var(variable) => resolve(state, variable, out)?,
        other => out.push(other)?,
    }
    Ok(())
}

/// The term with all bindings in place.
pub(crate) fn resolved(state: &State, term: &Term) -> Result<Term, AllocError>
    requires good { IsGood state.now }
    requires among { IsAmong state.now.slots.items term.now }
    ensures { IfOk result (λ t. t ≡ put (solution state.now) term.now) }
{
    let mut cells = Vec::new(*state.heap.allocator());
    for cell in term.cells() {
        resolve_cell(state, *cell, &mut cells)?;
    }
    Term::from_cells(cells).ok_or(AllocError)
}

/// The domain of a slot, where it is finite; a bound one has none.
fn domain_of_slot(state: &State, slot: Slot) -> Option<&Domain>
    requires place { (d : Option ℕ) → slot ≡ Slot.Free d → IsPlace state.now.domains.items d }
    ensures { option_map (λ d. set_of d.now) result ≡ slot_domain state.now.domains.items slot }
{
    match slot {
        Slot::Free(Some(place)) => Some(&state.domains[place as usize]),
        _ => None,
    }
}

/// The domain of a free variable, where it is finite; a bound one has none.
pub(crate) fn domain_of(state: &State, number: u32) -> Option<&Domain>
    requires good { IsGood state.now }
    ensures { option_map (λ d. set_of d.now) result ≡ slot_domain state.now.domains.items (slot_at state.now.slots.items number) }
{
    match state.slots.get(number as usize) {
        Some(slot) => domain_of_slot(state, *slot),
        None => None,
    }
}

/// The domains of these variables, in order.
pub(crate) fn domains_of(
    state: &State,
    numbers: &IndexSet<u32>,
) -> Result<Vec<Option<Domain>>, AllocError>
    requires good { IsGood state.now }
    ensures { IfOk result (λ ds. sets_of ds.items ≡ map (λ v. slot_domain state.now.domains.items (slot_at state.now.slots.items v)) numbers.now.keys) }
{
    let mut domains = Vec::with_capacity(*state.heap.allocator(), numbers.len())?;
    for number in numbers {
        domains.push(copied(domain_of(state, *number))?)?;
    }
    Ok(domains)
}

/// Adds a variable that is bound to a value, and answers its number.
pub(crate) fn add_bound(state: &mut State, value: Value) -> Result<u32, AllocError>
    requires good { IsGood state.old }
    requires value { IsNow (store_of state.old) value }
    ensures good { IsGood state.new }
    ensures kept { IsKept state.old state.new }
    ensures number { IfOk result (λ v. v ≡ length state.old.slots.items) }
    ensures added { IfOk result (λ _. IsAddedAs state.old state.new value) }
    ensures heap { IfOk result (λ _. state.new.heap.items ≡ state.old.heap.items) }
    ensures follows { IfOk result (λ v. Follows state.old state.new (equation (variable v) (value_term state.old.heap.items value))) }
{
    let number = state.define(value)?;
    Ok(number)
}
