//! What a variable or a cell is at the moment.
ghost use Rattle.std.specs.Prelude.{◌≡◌, ℕ, ◌<◌, length};
ghost use Rattle.pp_algebra.specs.Rows.{Domains};
ghost use Rattle.pp_algebra.specs.Terms.{Tree, variable};
ghost use Rattle.pp_heap.specs.Values.{slot_at, slot_of, term_at};
ghost use Rattle.pp_heap.specs.Stores.{store_of};
ghost use Rattle.pp_heap.specs.Agreement.{Agrees};
ghost use Rattle.pp_heap.specs.Soundness.{IsLinked};
ghost use Rattle.pp_heap.specs.Outcomes.{IsValue, IsSlotFor};

use crate::state::{Slot, State, Value};
use pp_row::Cell;

impl State {
    /// The last variable of a chain of variables that are bound to each other.
    fn chain_end(&self, variable: u32) -> u32
        requires linked { IsLinked (store_of self.now) }
        requires within { variable < length self.now.slots.items }
        ensures within { result < length self.now.slots.items }
        ensures end { (w : ℕ) → slot_at self.now.slots.items result ≡ Slot.Alias w → ⊥ }
        ensures same { (ds : Domains ℕ) (s : ℕ → Tree ℕ) → Agrees (store_of self.now) ds s → s variable ≡ s result }
    {
        let mut end = variable;
        while let Slot::Alias(next) = self.slots[end as usize] {
            end = next;
        }
        end
    }

    /// What a variable is.
    pub fn value_of(&self, number: u32) -> Value
        requires linked { IsLinked (store_of self.now) }
        requires within { number < length self.now.slots.items }
        ensures { IsValue (store_of self.now) (variable number) result }
    {
        let end = self.chain_end(number);
        match self.slots[end as usize] {
            Slot::Int(value) => Value::Int(value),
            Slot::Atom(name) => Value::Atom(name),
            Slot::Compound(place) => Value::Compound(place),
            _ => Value::Variable(end),
        }
    }

    /// What the cell at this place of the heap is.
    pub fn look(&self, at: u32) -> Value
        requires linked { IsLinked (store_of self.now) }
        requires within { at < length self.now.heap.items }
        ensures { IsValue (store_of self.now) (term_at self.now.heap.items at) result }
    {
        match self.heap[at as usize] {
            Cell::Int(value) => Value::Int(value),
            Cell::Atom(name) => Value::Atom(name),
            Cell::Compound(_, _) => Value::Compound(at),
            Cell::Var(variable) => self.value_of(variable),
        }
    }

    /// The slot of a variable that is bound to what this one is.
    pub fn slot_for_variable(&self, number: u32) -> Slot
        requires linked { IsLinked (store_of self.now) }
        requires within { number < length self.now.slots.items }
        ensures { IsSlotFor (store_of self.now) (variable number) result }
    {
        let last = self.chain_end(number);
        match self.slots[last as usize] {
            Slot::Free(_) => Slot::Alias(last),
            bound => bound,
        }
    }

    /// The slot of a variable that is bound to what the cell at this place of the heap is.
    pub fn slot_for_cell(&self, at: u32) -> Slot
        requires linked { IsLinked (store_of self.now) }
        requires within { at < length self.now.heap.items }
        ensures { IsSlotFor (store_of self.now) (term_at self.now.heap.items at) result }
    {
        match self.heap[at as usize] {
            Cell::Int(value) => Slot::Int(value),
            Cell::Atom(name) => Slot::Atom(name),
            Cell::Compound(_, _) => Slot::Compound(at),
            Cell::Var(variable) => self.slot_for_variable(variable),
        }
    }
}
