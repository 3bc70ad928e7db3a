//! What is known of the variables.
ghost use Rattle.std.specs.Prelude.{◌≡◌};
ghost use Rattle.pp_heap.specs.Values.{slot_of};

use pp_domain::Domain;
use pp_row::Cell;
use std::alloc::Global;

/// What is known of a variable: it is free, with the place of its domain (`None` for the domain `any`), or it is
/// bound to an earlier variable, an integer, an atom or the compound at a place of the heap.
#[derive(Clone, Copy, Debug, PartialEq, Eq)]
pub enum Slot {
    Free(Option<u32>),
    Alias(u32),
    Int(i64),
    Atom(u32),
    Compound(u32),
}

/// What a term is at the moment, and what a variable can be bound to: a free variable, an integer, an atom or the
/// compound at a place of the heap.
#[derive(Clone, Copy, Debug, PartialEq, Eq)]
pub enum Value {
    Variable(u32),
    Int(i64),
    Atom(u32),
    Compound(u32),
}

/// A change, with what it takes to undo it.
#[derive(Clone, Copy, Debug, PartialEq, Eq)]
pub enum Entry {
    /// Terms were put to the heap, which had so many cells.
    Grown(u32),
    /// A domain was put to the domains, of which there were so many.
    Held(u32),
    /// A variable was bound, which had this domain.
    Bound(u32, Option<u32>),
    /// A variable got another domain in place of this one.
    Narrowed(u32, Option<u32>),
    /// Free variables were added, before which there were so many.
    Added(u32),
    /// A variable of this number was added, and bound.
    Defined(u32),
}

/// The cells of all terms, the domains, a slot for each variable, and the changes in their order.
#[derive(Debug, Drop)]
pub struct State {
    pub heap: Vec<Cell>,
    pub domains: Vec<Domain>,
    pub slots: Vec<Slot>,
    pub trail: Vec<Entry>,
}

impl Value {
    /// The slot of a variable that is bound to the value.
    pub fn slot(self) -> Slot
        ensures { result ≡ slot_of self }
    {
        match self {
            Value::Variable(variable) => Slot::Alias(variable),
            Value::Int(value) => Slot::Int(value),
            Value::Atom(name) => Slot::Atom(name),
            Value::Compound(place) => Slot::Compound(place),
        }
    }
}
