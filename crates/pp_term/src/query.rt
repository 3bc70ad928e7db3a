//! Queries.
ghost use Rattle.std.specs.Prelude.{◌≡◌, IfOk};

use crate::{Items, Mode, Numbers, Shape, Term, Terms};
use pp_domain::Domain;
use pp_row::copy_domain;
use std::alloc::AllocError;

/// An item of a query: it is solved before the run, or it is an annotated goal.
#[derive(Debug, Drop)]
pub enum Item {
    Equate(Term, Term),
    Member(Term, Option<Domain>),
    Infer(Shape, Terms, Mode),
}

/// A query. Its variables are numbered below `vars`, the named ones first, and `named` holds the numbers of
/// their names.
#[derive(Debug, Drop)]
pub struct Query {
    pub vars: u32,
    pub named: Numbers,
    pub items: Items,
}

impl Item {
    /// A copy.
    pub fn copy(&self) -> Result<Item, AllocError>
        ensures { IfOk result (λ item. item ≡ self.now) }
    {
        Ok(match self {
            Item::Equate(left, right) => Item::Equate(left.copy()?, right.copy()?),
            Item::Member(term, domain) => Item::Member(term.copy()?, copy_domain(domain)?),
            Item::Infer(shape, arguments, mode) => Item::Infer(*shape, arguments.copy()?, *mode),
        })
    }
}

impl Query {
    /// A copy.
    pub fn copy(&self) -> Result<Query, AllocError>
        ensures { IfOk result (λ query. query ≡ self.now) }
    {
        Ok(Query {
            vars: self.vars,
            named: self.named.copy()?,
            items: self.items.copy()?,
        })
    }
}
