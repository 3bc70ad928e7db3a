//! Putting terms to the heap, and adding variables.
ghost use Rattle.std.specs.Prelude.{◌≡◌, ℕ, ◌+◌, ◌<◌, ◌≤◌, ◌^◌, ◌++◌, ◌∷◌, [], length, IfOk, OnOk, OnErr, Option, Some, None};
ghost use Rattle.std.specs.FinSet as set;
ghost use Rattle.pp_algebra.specs.Rows.{IsWide};
ghost use Rattle.std.specs.Prelude.{replicate};
ghost use Rattle.pp_row.specs.Cells.{renamed};
ghost use Rattle.pp_row.specs.Reading.{IsForest};
ghost use Rattle.pp_row.specs.Columns.{set_by};
ghost use Rattle.pp_heap.specs.Values.{cell_at, slot_at, domain_by, shifted};
ghost use Rattle.pp_heap.specs.Stores.{store_of, solution};
ghost use Rattle.pp_heap.specs.Soundness.{IsGood, IsKept, IsPlace};
ghost use Rattle.pp_heap.specs.Outcomes.{IsGrown, IsCalm, IsAdded};

use crate::state::{Entry, Slot, State};
use pp_domain::Domain;
use pp_row::Cell;
use std::alloc::{AllocError, Global};

/// The cell with its variable's number counted from `first`.
fn shifted_cell(cell: Cell, first: u32) -> Cell
    requires fits { (v : ℕ) → cell ≡ Cell.Var v → first + v < 2 ^ 32 }
    ensures { result ≡ renamed (λ v. first + v) cell }
{
    match cell {
        Cell::Var(variable) => Cell::Var(first + variable),
        _ => cell,
    }
}

/// Puts the cells after `out`, with the numbers of their variables counted from `first`.
fn push_shifted(out: &mut Vec<Cell>, cells: &[Cell], first: u32) -> Result<(), AllocError>
    requires fits { (p v : ℕ) → cell_at cells.now p ≡ Cell.Var v → first + v < 2 ^ 32 }
    ensures cells { OnOk result (out.new.items ≡ out.old.items ++ shifted first cells.now) }
    ensures err { OnErr result (out.new.items ≡ out.old.items) }
{
    out.reserve(cells.len())?;
    for cell in cells {
        out.push_reserved(shifted_cell(*cell, first));
    }
    Ok(())
}

/// Puts as many slots of free variables after the others.
fn push_free(slots: &mut Vec<Slot>, count: u32) -> Result<(), AllocError>
    ensures slots { OnOk result (slots.new.items ≡ slots.old.items ++ replicate count (Slot.Free None)) }
    ensures err { OnErr result (slots.new.items ≡ slots.old.items) }
{
    slots.reserve(count as usize)?;
    let mut left = count;
    while left > 0 {
        slots.push_reserved(Slot::Free(None));
        left -= 1;
    }
    Ok(())
}

impl State {
    /// No variables.
    pub fn new(alloc: Global) -> State
        ensures good { IsGood result }
        ensures trail { result.trail.items ≡ [] }
        ensures slots { result.slots.items ≡ [] }
        ensures domains { result.domains.items ≡ [] }
    {
        State {
            heap: Vec::new(alloc),
            domains: Vec::new(alloc),
            slots: Vec::new(alloc),
            trail: Vec::new(alloc),
        }
    }

    /// A copy.
    pub fn copy(&self) -> Result<State, AllocError>
        requires good { IsGood self.now }
        ensures good { IfOk result IsGood }
        ensures store { IfOk result (λ s. store_of s ≡ store_of self.now) }
        ensures trail { IfOk result (λ s. s.trail.items ≡ self.now.trail.items) }
    {
        let alloc = *self.heap.allocator();
        let mut domains = Vec::with_capacity(alloc, self.domains.len())?;
        for domain in &self.domains {
            domains.push(domain.copy()?)?;
        }
        Ok(State {
            heap: Vec::from_slice(alloc, self.heap.as_slice())?,
            domains,
            slots: Vec::from_slice(alloc, self.slots.as_slice())?,
            trail: Vec::from_slice(alloc, self.trail.as_slice())?,
        })
    }

    /// Puts the cells of terms to the heap, with the numbers of their variables counted from `first`, and answers
    /// where they begin.
    pub fn grow(&mut self, cells: &[Cell], first: u32) -> Result<u32, AllocError>
        requires good { IsGood self.old }
        requires forest { IsForest (shifted first cells.now) }
        requires variables { (p v : ℕ) → cell_at (shifted first cells.now) p ≡ Cell.Var v → v < length self.old.slots.items }
        ensures grown { IsGrown self.old self.new }
        ensures at { IfOk result (λ at. at ≡ length self.old.heap.items) }
        ensures heap { IfOk result (λ _. self.new.heap.items ≡ self.old.heap.items ++ shifted first cells.now) }
    {
        let end = u32::try_from(self.heap.len() + cells.len()).map_err(|_| AllocError)?;
        let at = end - cells.len() as u32;
        self.trail.push(Entry::Grown(at))?;
        push_shifted(&mut self.heap, cells, first)?;
        Ok(at)
    }

    /// Adds a variable of the domain, and answers its number.
    pub fn add(&mut self, domain: Option<Domain>) -> Result<u32, AllocError>
        requires good { IsGood self.old }
        requires wide { IsWide (set_by domain) }
        ensures good { IsGood self.new }
        ensures kept { IsKept self.old self.new }
        ensures number { IfOk result (λ v. v ≡ length self.old.slots.items) }
        ensures added { IfOk result (λ _. IsAdded self.old self.new (set_by domain)) }
    {
        let place = self.hold_any(domain)?;
        self.add_slot(place)
    }

    /// Puts a domain to the domains, where there is one, and answers its place.
    fn hold_any(&mut self, domain: Option<Domain>) -> Result<Option<u32>, AllocError>
        requires good { IsGood self.old }
        requires wide { IsWide (set_by domain) }
        ensures calm { IsCalm self.old self.new }
        ensures place { IfOk result (IsPlace self.new.domains.items) }
        ensures domain { IfOk result (λ k. domain_by self.new.domains.items k ≡ set_by domain) }
    {
        match domain {
            None => Ok(None),
            Some(domain) => Ok(Some(self.hold(domain)?)),
        }
    }

    /// Adds a variable of the domain at a place.
    pub fn add_slot(&mut self, place: Option<u32>) -> Result<u32, AllocError>
        requires good { IsGood self.old }
        requires place { IsPlace self.old.domains.items place }
        ensures good { IsGood self.new }
        ensures kept { IsKept self.old self.new }
        ensures number { IfOk result (λ v. v ≡ length self.old.slots.items) }
        ensures added { IfOk result (λ _. IsAdded self.old self.new (domain_by self.old.domains.items place)) }
    {
        let number = u32::try_from(self.slots.len()).map_err(|_| AllocError)?;
        self.trail.push(Entry::Added(number))?;
        self.slots.push(Slot::Free(place))?;
        Ok(number)
    }

    /// Adds as many variables of the domain `any`, and answers the first one's number.
    pub fn add_many(&mut self, count: u32) -> Result<u32, AllocError>
        requires good { IsGood self.old }
        ensures good { IsGood self.new }
        ensures kept { IsKept self.old self.new }
        ensures number { IfOk result (λ v. v ≡ length self.old.slots.items) }
        ensures slots { IfOk result (λ _. self.new.slots.items ≡ self.old.slots.items ++ replicate count (Slot.Free None)) }
        ensures same { (v : ℕ) → solution self.new v ≡ solution self.old v }
        ensures heap { self.new.heap.items ≡ self.old.heap.items }
        ensures domains { self.new.domains.items ≡ self.old.domains.items }
    {
        let end = u32::try_from(self.slots.len() + count as usize).map_err(|_| AllocError)?;
        let number = end - count;
        self.trail.push(Entry::Added(number))?;
        push_free(&mut self.slots, count)?;
        Ok(number)
    }
}
