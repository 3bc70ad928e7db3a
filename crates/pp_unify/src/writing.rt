//! Terms with all bindings in place.
ghost use Rattle.std.specs.Prelude.{◌≡◌, ◌<◌, ◌++◌, length, IfOk, All};
ghost use Rattle.pp_row.specs.Cells.{cells_of};
ghost use Rattle.pp_heap.specs.Stores.{store_of, solution};
ghost use Rattle.pp_heap.specs.Soundness.{IsGood};
ghost use Rattle.pp_heap.specs.Outcomes.{IsNow};
ghost use Rattle.pp_heap.specs.Spans.{IsSpan};
ghost use Rattle.pp_unify.specs.Writing.{top_cell, IsWritten};

use pp_heap::{Span, State, Value};
use pp_row::Cell;
use std::alloc::AllocError;

/// The first cell of a value.
fn top_cell(state: &State, value: Value) -> Cell
    requires now { IsNow (store_of state.now) value }
    ensures { result ≡ top_cell state.now.heap.items value }
{
    match value {
        Value::Variable(free) => Cell::Var(free),
        Value::Int(value) => Cell::Int(value),
        Value::Atom(name) => Cell::Atom(name),
        Value::Compound(place) => state.heap[place as usize],
    }
}

/// Writes a value after `out`, and puts its arguments to the work.
fn write(
    state: &State,
    value: Value,
    out: &mut Vec<Cell>,
    work: &mut Vec<Span>,
) -> Result<(), AllocError>
    requires good { IsGood state.now }
    requires now { IsNow (store_of state.now) value }
    requires all { All (IsSpan state.now.heap.items) work.old.items }
    ensures all { IfOk result (λ _. All (IsSpan state.now.heap.items) work.new.items) }
    ensures written { IfOk result (λ _. IsWritten state.now value out.old.items out.new.items work.old.items work.new.items) }
{
    out.push(top_cell(state, value))?;
    if let Value::Compound(place) = value {
        state.push_arguments(work, place)?;
    }
    Ok(())
}

/// Puts the cells of the variable's term after `out`.
pub(crate) fn resolve(state: &State, number: u32, out: &mut Vec<Cell>) -> Result<(), AllocError>
    requires good { IsGood state.now }
    requires within { number < length state.now.slots.items }
    ensures { IfOk result (λ _. out.new.items ≡ out.old.items ++ cells_of (solution state.now number)) }
{
    let mut work = Vec::new(*state.heap.allocator());
    write(state, state.value_of(number), out, &mut work)?;
    while let Some(span) = work.pop() {
        if state.is_compound(span.at) {
            out.push(state.heap[span.at as usize])?;
            state.push_inside(&mut work, span)?;
            continue;
        }
        state.push_rest(&mut work, span)?;
        write(state, state.look(span.at), out, &mut work)?;
    }
    Ok(())
}
