//! Terms.
ghost use Rattle.std.specs.Prelude.{◌+◌, ◌<◌, ◌^◌, ◌≡◌, ℕ, ◌↔◌, IsTrue, All, MatchOption, IfOk, Some, length, option_map, nat_eq, [], ◌∷◌};
ghost use Rattle.pp_algebra.specs.Canon.{firsts, place};
ghost use Rattle.pp_algebra.specs.Covers.{IsIn};
ghost use Rattle.pp_algebra.specs.Members.{IsInteger};
ghost use Rattle.pp_algebra.specs.Terms.{Tree, int, node, variable, none, put, variables, count};
ghost use Rattle.pp_row.specs.Cells.{IsTerm, IsLegalCell, cells_of, variables_in, renamed};
ghost use Rattle.pp_row.specs.Reading.{IsOneTerm, stack};
ghost use Rattle.pp_row.specs.Substitution.{term_at};

use crate::Cell;
use crate::substitution::{replaced, shifted};
use indexmap::IndexSet;
use std::alloc::{AllocError, Global};
use std::marker::Model;

/// A term, which a contract sees as a tree. It is kept as its cells in prefix order.
#[derive(Debug, Drop)]
pub struct Term {
    cells: Vec<Cell>,
}

impl Model for Term {
    ghost use Rattle.std.specs.Prelude.{ℕ};
    ghost use Rattle.pp_algebra.specs.Terms.{Tree};
    ghost use Rattle.pp_row.specs.Codes.{tree_code};

    ghost Value = { Tree ℕ };

    ghost coded = { tree_code };

    ghost use Rattle.pp_row.specs.Reading.{IsOneTerm, tree_of};

    ghost view = { λ s. tree_of s.cells.items };

    ghost invariant = { λ s. IsOneTerm s.cells.items };
}

impl Cell {
    /// Whether the integer or the number of arguments is one that a term may have.
    fn is_legal(self) -> bool
        ensures { IsTrue result ↔ IsLegalCell self }
    {
        match self {
            Cell::Int(value) => -1_000_000_000_000 <= value && value <= 1_000_000_000_000,
            Cell::Compound(_, arity) => 1 <= arity && arity <= 255,
            _ => true,
        }
    }
}

fn all_legal(cells: &[Cell]) -> bool
    ensures { IsTrue result ↔ All IsLegalCell cells.now }
{
    cells.iter().all(|cell| cell.is_legal())
}

/// How many terms the cells write one after another, where they write whole terms.
fn complete_terms(cells: &[Cell]) -> Option<usize>
    ensures { option_map count (stack cells.now) ≡ result }
{
    let mut complete: usize = 0;
    let mut i = cells.len();
    while i > 0 {
        i -= 1;
        let arity = cells[i].arity() as usize;
        if complete < arity {
            return None;
        }
        complete = complete - arity + 1;
    }
    Some(complete)
}

#[tactic(auto, using(crate::proofs::OneTerm::is_one, crate::proofs::OneTerm::counts_one_term))]
fn is_one_term(cells: &[Cell]) -> bool
    ensures { IsTrue result ↔ IsOneTerm cells.now }
{
    all_legal(cells) && complete_terms(cells) == Some(1)
}

impl Term {
    /// The term that the cells write; `None` exactly where they aren't one term in prefix order within the
    /// limits of a term: integers from -1,000,000,000,000 to 1,000,000,000,000 and 1 to 255 arguments.
    #[tactic(auto, using(crate::proofs::OneTerm::one_of))]
    pub fn from_cells(cells: Vec<Cell>) -> Option<Term>
        ensures { MatchOption result ((t : Tree ℕ) → IsTerm t → cells_of t ≡ cells.items → ⊥) (λ t. IsTerm t × (cells_of t ≡ cells.items)) }
    {
        if is_one_term(&cells) {
            Some(Term { cells })
        } else {
            None
        }
    }

    /// The term of one cell.
    fn from_cell(alloc: Global, cell: Cell) -> Result<Term, AllocError>
        requires { IsOneTerm (cell ∷ []) }
        ensures { IfOk result (λ t. cells_of t ≡ cell ∷ []) }
    {
        let mut cells = Vec::with_capacity(alloc, 1)?;
        cells.push(cell)?;
        Ok(Term { cells })
    }

    /// An integer.
    pub fn integer(alloc: Global, value: i64) -> Result<Term, AllocError>
        requires { IsInteger value }
        ensures { IfOk result (λ t. t ≡ int value) }
    {
        Term::from_cell(alloc, Cell::Int(value))
    }

    /// An atom, by the number of its name.
    pub fn atom(alloc: Global, name: u32) -> Result<Term, AllocError>
        ensures { IfOk result (λ t. t ≡ node name none) }
    {
        Term::from_cell(alloc, Cell::Atom(name))
    }

    /// A variable, by its number.
    pub fn variable(alloc: Global, number: u32) -> Result<Term, AllocError>
        ensures { IfOk result (λ t. t ≡ variable number) }
    {
        Term::from_cell(alloc, Cell::Var(number))
    }

    /// The cells in prefix order.
    pub fn cells(&self) -> &[Cell]
        ensures cells { result.now ≡ cells_of self.now }
        ensures term { IsTerm self.now }
    {
        self.cells.as_slice()
    }

    /// Whether both are one term.
    pub fn same(&self, other: &Term) -> bool
        ensures { IsTrue result ↔ (self.now ≡ other.now) }
    {
        self.cells.as_slice() == other.cells.as_slice()
    }

    /// A copy.
    pub fn copy(&self) -> Result<Term, AllocError>
        ensures { IfOk result (λ t. t ≡ self.now) }
    {
        let alloc = *self.cells.allocator();
        Ok(Term {
            cells: Vec::from_slice(alloc, self.cells.as_slice())?,
        })
    }

    /// The term with terms in place of its variables: variable n becomes the n-th of them, and one without a
    /// place stays.
    pub fn substituted(&self, terms: &[Term]) -> Result<Term, AllocError>
        ensures { IfOk result (λ t. t ≡ put (term_at terms.now) self.now) }
    {
        let alloc = *self.cells.allocator();
        Ok(Term {
            cells: replaced(alloc, self.cells.as_slice(), terms)?,
        })
    }

    /// The term with the numbers of its variables counted from `first`.
    pub fn shifted(&self, first: u32) -> Result<Term, AllocError>
        requires fits { (v : ℕ) → IsIn v (variables self.now) → first + v < 2 ^ 32 }
        ensures { IfOk result (λ t. t ≡ put (λ v. variable (first + v)) self.now) }
    {
        let alloc = *self.cells.allocator();
        Ok(Term {
            cells: shifted(alloc, self.cells.as_slice(), first)?,
        })
    }

    /// The term with its variables numbered by their places in `names`, which takes in those that are new.
    pub fn numbered(self, names: &mut IndexSet<u32>) -> Result<Term, AllocError>
        ensures names { IfOk result (λ _. names.new.keys ≡ firsts nat_eq names.old.keys (variables self)) }
        ensures term { IfOk result (λ t. t ≡ put (λ v. variable (place nat_eq names.new.keys v)) self) }
    {
        let mut cells = self.cells;
        for i in 0..cells.len() {
            cells[i] = numbered_cell(names, cells[i])?;
        }
        Ok(Term { cells })
    }
}

/// The cell with its variable numbered by its place in `names`, which takes it in where it is new.
fn numbered_cell(names: &mut IndexSet<u32>, cell: Cell) -> Result<Cell, AllocError>
    ensures names { IfOk result (λ _. names.new.keys ≡ firsts nat_eq names.old.keys (variables_in cell)) }
    ensures cell { IfOk result (λ c. c ≡ renamed (place nat_eq names.new.keys) cell) }
{
    match cell {
        Cell::Var(variable) => Ok(Cell::Var(number(names, variable)?)),
        _ => Ok(cell),
    }
}

/// The place of the variable in `names`, which takes it in where it is new.
fn number(names: &mut IndexSet<u32>, variable: u32) -> Result<u32, AllocError>
    ensures names { IfOk result (λ _. names.new.keys ≡ firsts nat_eq names.old.keys (variable ∷ [])) }
    ensures place { IfOk result (λ k. k ≡ place nat_eq names.new.keys variable) }
{
    let (place, _) = names.insert_full(variable)?;
    let number = u32::try_from(place).map_err(|_| AllocError)?;
    Ok(number)
}
