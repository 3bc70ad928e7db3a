//! Rows.
ghost use Rattle.std.specs.Prelude.{◌≡◌, ◌↔◌, IsTrue, IfOk, nat_eq};
ghost use Rattle.pp_algebra.specs.Rows.{IsRow, AreWide};
ghost use Rattle.pp_algebra.specs.Canon.{canon};
ghost use Rattle.pp_algebra.specs.Numbered.{call};
ghost use Rattle.pp_row.specs.Columns.{trees_of, sets_of, pattern_by, row_by};

use crate::Term;
use crate::domains::{copy_domains, domains_of, same_domains};
use indexmap::IndexSet;
use pp_domain::Domain;
use std::alloc::{AllocError, Global};
use std::marker::Model;

/// A row: columns of terms, whose variables are numbered from 0 by first occurrence, with a domain for each
/// variable. `None` is the domain `any`; a finite domain has at least two integers.
#[derive(Debug, Drop)]
pub struct Row {
    columns: Vec<Term>,
    domains: Vec<Option<Domain>>,
}

impl Model for Row {
    ghost use Rattle.pp_algebra.specs.Rows.{Row as RowValue, IsRow};
    ghost use Rattle.pp_row.specs.Columns.{row_by};
    ghost use Rattle.pp_row.specs.Codes.{row_code};

    ghost Value = { RowValue };

    ghost coded = { row_code };

    ghost view = { λ s. row_by s.columns.items s.domains.items };

    ghost invariant = { λ s. IsRow (row_by s.columns.items s.domains.items) };
}

/// Whether both are the same terms in the same order.
pub fn same_terms(left: &[Term], right: &[Term]) -> bool
    ensures { IsTrue result ↔ (left.now ≡ right.now) }
{
    if left.len() != right.len() {
        return false;
    }
    for (i, term) in left.iter().enumerate() {
        if !term.same(&right[i]) {
            return false;
        }
    }
    true
}

impl Row {
    /// The row of these columns, whose variables may have any numbers and get new ones. Variable n has the n-th
    /// of the domains, and `any` where there is none. It is linear in the cells.
    pub fn canon(
        alloc: Global,
        columns: Vec<Term>,
        domains: &[Option<Domain>],
    ) -> Result<Row, AllocError>
        requires wide { AreWide (sets_of domains.now) }
        ensures { IfOk result (λ r. r ≡ canon nat_eq (pattern_by columns.items domains.now)) }
    {
        let mut names = IndexSet::new(alloc);
        let mut numbered = Vec::with_capacity(alloc, columns.len())?;
        for column in columns {
            numbered.push(column.numbered(&mut names)?)?;
        }
        let domains = domains_of(alloc, &names, domains)?;
        Ok(Row {
            columns: numbered,
            domains,
        })
    }

    /// The row of columns whose variables are numbered by first occurrence already, with their domains.
    pub fn from_numbered(columns: Vec<Term>, domains: Vec<Option<Domain>>) -> Row
        requires row { IsRow (row_by columns.items domains.items) }
        ensures { result ≡ row_by columns.items domains.items }
    {
        Row { columns, domains }
    }

    /// The columns.
    pub fn columns(&self) -> &[Term]
        ensures columns { trees_of result.now ≡ self.now.columns }
        ensures row { IsRow self.now }
    {
        self.columns.as_slice()
    }

    /// The domains, by the numbers of the variables.
    pub fn domains(&self) -> &[Option<Domain>]
        ensures domains { sets_of result.now ≡ self.now.domains }
        ensures row { IsRow self.now }
    {
        self.domains.as_slice()
    }

    /// Whether both are one row.
    pub fn same(&self, other: &Row) -> bool
        ensures { IsTrue result ↔ (self.now ≡ other.now) }
    {
        same_terms(self.columns.as_slice(), other.columns.as_slice())
            && same_domains(self.domains.as_slice(), other.domains.as_slice())
    }

    /// The row of the distinct variables, with their domains.
    pub fn call(&self) -> Result<Row, AllocError>
        ensures { IfOk result (λ r. r ≡ call self.now) }
    {
        let alloc = *self.columns.allocator();
        let mut columns = Vec::with_capacity(alloc, self.domains.len())?;
        for variable in 0..self.domains.len() {
            let number = u32::try_from(variable).map_err(|_| AllocError)?;
            columns.push(Term::variable(alloc, number)?)?;
        }
        Ok(Row {
            columns,
            domains: copy_domains(alloc, self.domains.as_slice())?,
        })
    }

    /// A copy.
    pub fn copy(&self) -> Result<Row, AllocError>
        ensures { IfOk result (λ r. r ≡ self.now) }
    {
        let alloc = *self.columns.allocator();
        let mut columns = Vec::with_capacity(alloc, self.columns.len())?;
        for column in &self.columns {
            columns.push(column.copy()?)?;
        }
        Ok(Row {
            columns,
            domains: copy_domains(alloc, self.domains.as_slice())?,
        })
    }
}
