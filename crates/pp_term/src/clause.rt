//! Goals and clauses.
ghost use Rattle.std.specs.Prelude.{◌≡◌, IfOk};

use crate::{Goals, Pred, Relation, Shape, Term, Terms};
use pp_domain::Domain;
use pp_row::copy_domain;
use std::alloc::AllocError;

/// A goal of a clause's body. `None` in a membership is the empty set.
#[derive(Debug, Drop)]
pub enum Goal {
    Call(Shape, Terms),
    Equate(Term, Term),
    Member(Term, Option<Domain>),
    Compare(Relation, Term, Term),
}

/// A clause. Its variables are numbered below `vars`.
#[derive(Debug, Drop)]
pub struct Clause {
    pub pred: Pred,
    pub head: Terms,
    pub body: Goals,
    pub vars: u32,
}

impl Goal {
    /// A copy.
    pub fn copy(&self) -> Result<Goal, AllocError>
        ensures { IfOk result (λ goal. goal ≡ self.now) }
    {
        Ok(match self {
            Goal::Call(shape, arguments) => Goal::Call(*shape, arguments.copy()?),
            Goal::Equate(left, right) => Goal::Equate(left.copy()?, right.copy()?),
            Goal::Member(term, domain) => Goal::Member(term.copy()?, copy_domain(domain)?),
            Goal::Compare(relation, left, right) => {
                Goal::Compare(*relation, left.copy()?, right.copy()?)
            }
        })
    }
}

impl Clause {
    /// A copy.
    pub fn copy(&self) -> Result<Clause, AllocError>
        ensures { IfOk result (λ clause. clause ≡ self.now) }
    {
        Ok(Clause {
            pred: self.pred,
            head: self.head.copy()?,
            body: self.body.copy()?,
            vars: self.vars,
        })
    }
}
