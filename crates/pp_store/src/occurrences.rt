//! Of each variable, what it stands in.
ghost use Rattle.std.specs.Prelude.{◌≡◌, ◌<◌, ◌≤◌, ℕ, [], ◌∷◌, length, IfOk, OnOk, nat_eq, get_or};
ghost use Rattle.pp_algebra.specs.Canon.{firsts};
ghost use Rattle.pp_algebra.specs.Covers.{IsIn};
ghost use Rattle.pp_algebra.specs.Terms.{variables};
ghost use Rattle.pp_row.specs.Cells.{variables_in};
ghost use Rattle.pp_store.specs.Occurring.{Stands, HasMore, IsLonger, AreGathered};

use indexmap::IndexSet;
use pp_term::{Cell, Term};
use std::alloc::{AllocError, Global};
use std::marker::Model;

/// Of each variable the numbers of what it stands in, be it columns or goals. They may be more than these.
#[derive(Debug, Drop)]
pub(crate) struct Occurrences {
    alloc: Global,
    sets: Vec<IndexSet<u32>>,
}

impl Model for Occurrences {
    ghost use Rattle.std.specs.Prelude.{ℕ, List, map};

    ghost Value = { List (List ℕ) };

    ghost view = { λ s. map (λ x. x.keys) s.sets.items };
}

impl Occurrences {
    /// Those of no variable.
    pub fn new(alloc: Global) -> Occurrences
        ensures { result ≡ [] }
    {
        Occurrences {
            alloc,
            sets: Vec::new(alloc),
        }
    }

    /// Takes in variables until there are so many. A new one stands nowhere.
    pub fn grow(&mut self, count: usize) -> Result<(), AllocError>
        ensures longer { IsLonger self.old self.new }
        ensures count { OnOk result (count ≤ length self.new) }
    {
        while self.sets.len() < count {
            self.sets
                .push(IndexSet::new(self.alloc))
                .map_err(|_| AllocError)?;
        }
        Ok(())
    }

    /// Notes that a variable stands in the one with this number.
    fn add_one(&mut self, variable: u32, number: u32) -> Result<(), AllocError>
        requires within { variable < length self.old }
        ensures more { HasMore (number ∷ []) self.old self.new }
        ensures added { OnOk result (Stands self.new variable number) }
    {
        self.sets[variable as usize].insert(number)?;
        Ok(())
    }

    /// The same of a cell's variable.
    fn add_cell(&mut self, cell: Cell, number: u32) -> Result<(), AllocError>
        requires within { (v : ℕ) → IsIn v (variables_in cell) → v < length self.old }
        ensures more { HasMore (number ∷ []) self.old self.new }
        ensures added { OnOk result ((v : ℕ) → IsIn v (variables_in cell) → Stands self.new v number) }
    {
        match cell {
            Cell::Var(variable) => self.add_one(variable, number),
            _ => Ok(()),
        }
    }

    /// Notes that a term's variables stand in the one with this number.
    pub fn add(&mut self, term: &Term, number: u32) -> Result<(), AllocError>
        requires within { (v : ℕ) → IsIn v (variables term.now) → v < length self.old }
        ensures more { HasMore (number ∷ []) self.old self.new }
        ensures added { OnOk result ((v : ℕ) → IsIn v (variables term.now) → Stands self.new v number) }
    {
        for cell in term.cells() {
            self.add_cell(*cell, number)?;
        }
        Ok(())
    }

    /// Takes in what a variable stands in.
    fn take_in(&self, variable: u32, numbers: &mut IndexSet<u32>) -> Result<(), AllocError>
        requires within { variable < length self.now }
        ensures { OnOk result (numbers.new.keys ≡ firsts nat_eq numbers.old.keys (get_or self.now variable [])) }
    {
        for number in self.sets[variable as usize].as_slice() {
            numbers.insert(*number)?;
        }
        Ok(())
    }

    /// What one of these variables stands in.
    pub fn gather(&self, variables: &[u32]) -> Result<IndexSet<u32>, AllocError>
        requires within { (v : ℕ) → IsIn v variables.now → v < length self.now }
        ensures { IfOk result (λ numbers. AreGathered self.now variables.now numbers.keys) }
    {
        let mut numbers = IndexSet::new(self.alloc);
        for variable in variables {
            self.take_in(*variable, &mut numbers)?;
        }
        Ok(numbers)
    }
}
