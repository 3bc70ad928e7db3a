//! What is known of a query's variables, under any numbers, and what a row that is applied makes of it.
ghost use Rattle.std.specs.Prelude.{◌≡◌, ◌<◌, ◌≤◌, ◌⊎◌, ℕ, All, IfOk, OnErr, OnOk, length, get_or, nat_eq};
ghost use Rattle.pp_algebra.specs.Covers.{IsIn};
ghost use Rattle.pp_algebra.specs.Rows.{IsRow};
ghost use Rattle.pp_algebra.specs.Terms.{count as column_count, variables, variables_all};
ghost use Rattle.pp_propagation.specs.Stores.{face as face_of};
ghost use Rattle.pp_row.specs.Columns.{trees_of};
ghost use Rattle.pp_term.specs.WellFormed.{AreBelow};
ghost use Rattle.pp_store.specs.Occurring.{Stands, HasMore};
ghost use Rattle.pp_store.specs.Replacing.{OfGoal};
ghost use Rattle.pp_store.specs.Patterns.{column_at, row_in, IsSound, IsChange, IsMeant, AreLonger, IsAsBefore, IsMade};

use crate::numbers::{end_of, numbered};
use crate::occurrences::Occurrences;
use crate::renewed::{Replacement, renewed_at};
use crate::rows::{copies, domain_copies, face, face_names, replaced, variables_by};
use crate::writing::{write_domains, write_terms};
use indexmap::IndexSet;
use pp_domain::Domain;
use pp_term::{Row, Term};
use std::alloc::{AllocError, Global};

/// A column for each of the query's variables. The variables in them have any numbers, with a domain for each, and the
/// columns in which it may stand.
#[derive(Debug, Drop)]
pub(crate) struct Pattern {
    pub alloc: Global,
    pub columns: Vec<Term>,
    pub domains: Vec<Option<Domain>>,
    pub places: Occurrences,
}

/// A row that is applied to a goal: the columns that it changes, what they become, and the numbers and domains of its
/// variables.
#[derive(Debug, Drop)]
pub(crate) struct Change {
    pub touched: IndexSet<u32>,
    pub columns: Vec<Term>,
    pub numbers: Vec<u32>,
    pub domains: Vec<Option<Domain>>,
}

/// Notes for each of these terms that its variables stand at its place.
fn add_all(places: &mut Occurrences, numbers: &[u32], terms: &[Term]) -> Result<(), AllocError>
    requires many { length terms.now ≤ length numbers.now }
    requires within { (v : ℕ) → IsIn v (variables_all (trees_of terms.now)) → v < length places.old }
    ensures more { HasMore numbers.now places.old places.new }
    ensures added { OnOk result ((i v : ℕ) → i < length terms.now → IsIn v (variables (column_at terms.now i))
        → Stands places.new v (get_or numbers.now i 0)) }
{
    for (i, term) in terms.iter().enumerate() {
        places.add(term, numbers[i])?;
    }
    Ok(())
}

/// Takes in variables of domain `any` until there are so many.
fn grow_domains(domains: &mut Vec<Option<Domain>>, count: usize) -> Result<(), AllocError>
    ensures longer { AreLonger domains.old.items domains.new.items }
    ensures count { OnOk result (count ≤ length domains.new.items) }
    ensures least { length domains.old.items ≤ count → length domains.new.items ≤ count }
{
    while domains.len() < count {
        domains.push(None)?;
    }
    Ok(())
}

/// How many variables a row has.
fn variable_count(domains: &[Option<Domain>]) -> Result<u32, AllocError>
    ensures { IfOk result (λ n. n ≡ length domains.now) }
{
    let count = u32::try_from(domains.len()).map_err(|_| AllocError)?;
    Ok(count)
}

/// The places of the variables of columns, `count` of them.
fn places_of(alloc: Global, columns: &[Term], count: usize) -> Result<Occurrences, AllocError>
    requires below { (v : ℕ) → IsIn v (variables_all (trees_of columns.now)) → v < count }
    ensures count { IfOk result (λ places. count ≤ length places) }
    ensures placed { IfOk result (λ places. (k v : ℕ) → k < length columns.now
        → IsIn v (variables (column_at columns.now k)) → Stands places v k) }
    ensures within { IfOk result (λ places. (v k : ℕ) → Stands places v k → k < length columns.now) }
{
    let mut places = Occurrences::new(alloc);
    places.grow(count)?;
    for (i, column) in columns.iter().enumerate() {
        let place = u32::try_from(i).map_err(|_| AllocError)?;
        places.add(column, place)?;
    }
    Ok(places)
}

impl Pattern {
    /// That of a row.
    pub fn new(alloc: Global, row: &Row) -> Result<Pattern, AllocError>
        ensures sound { IfOk result IsSound }
        ensures row { IfOk result (λ p. row_in p ≡ row.now) }
        ensures count { IfOk result (λ p. length p.columns.items ≡ column_count row.now.columns) }
    {
        let columns = copies(alloc, row.columns())?;
        let domains = domain_copies(alloc, row.domains())?;
        let places = places_of(alloc, &columns, domains.len())?;
        Ok(Pattern {
            alloc,
            columns,
            domains,
            places,
        })
    }

    /// The canonical row.
    pub fn row(&self) -> Result<Row, AllocError>
        requires sound { IsSound self.now }
        ensures { IfOk result (λ r. r ≡ row_in self.now) }
    {
        let columns = copies(self.alloc, &self.columns)?;
        Row::canon(self.alloc, columns, &self.domains)
    }

    /// The face of a goal of these arguments.
    pub fn face(&self, arguments: &[Term]) -> Result<Row, AllocError>
        requires sound { IsSound self.now }
        requires below { AreBelow (length self.now.columns.items) arguments.now }
        ensures { IfOk result (λ r. OfGoal arguments.now (λ g. r ≡ face_of (row_in self.now) g)) }
    {
        face(self.alloc, &self.columns, &self.domains, arguments)
    }

    /// What applying a row to a goal of these arguments changes.
    pub fn change(&self, arguments: &[Term], given: &Row) -> Result<Change, AllocError>
        requires sound { IsSound self.now }
        requires below { AreBelow (length self.now.columns.items) arguments.now }
        requires wide { OfGoal arguments.now
            (λ g. column_count given.now.columns ≡ length (face_of (row_in self.now) g).domains) }
        ensures change { IfOk result (IsChange self.now arguments.now given.now) }
        ensures meant { IfOk result (IsMeant self.now) }
        ensures given { OnOk result (IsRow given.now) }
    {
        let alloc = self.alloc;
        let names = face_names(alloc, &self.columns, arguments)?;
        let first = variable_count(&self.domains)?;
        let count = variable_count(given.domains())?;
        let Some(_) = first.checked_add(count) else {
            return Err(AllocError);
        };
        let numbers = numbered(alloc, names.as_slice(), given.columns(), first, count)?;
        let fresh = variables_by(alloc, &numbers)?;
        let terms = replaced(alloc, given.columns(), &fresh)?;
        let touched = self.places.gather(names.as_slice())?;
        let by = Replacement { names, terms };
        let columns = renewed_at(alloc, &self.columns, touched.as_slice(), &by)?;
        Ok(Change {
            touched,
            columns,
            numbers,
            domains: domain_copies(alloc, given.domains())?,
        })
    }

    /// Makes a change.
    pub fn make(&mut self, change: Change) -> Result<(), AllocError>
        requires meant { IsMeant self.old change }
        requires sound { IsSound self.old }
        ensures made { OnOk result (IsMade self.old change self.new) }
        ensures err { OnErr result (IsAsBefore self.old self.new) }
    {
        let Change {
            touched,
            columns,
            numbers,
            domains,
        } = change;
        let end = end_of(&numbers, self.domains.len());
        self.places.grow(end)?;
        grow_domains(&mut self.domains, end)?;
        add_all(&mut self.places, touched.as_slice(), &columns)?;
        write_terms(&mut self.columns, touched.as_slice(), columns);
        write_domains(&mut self.domains, &numbers, domains);
        Ok(())
    }
}
