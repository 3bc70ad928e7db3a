//! Programs.
ghost use Rattle.std.specs.Prelude.{◌≡◌, IfOk};

use pp_list::ListOf;
use pp_term::{Clause, Names, Query};
use std::alloc::AllocError;

/// The clauses of a text, in order.
pub type ClauseList = ListOf<Clause>;

/// What a text writes. The names number its atoms and named variables.
#[derive(Debug, Drop)]
pub struct Program {
    pub names: Names,
    pub clauses: ClauseList,
    pub query: Query,
}

impl Program {
    /// A copy.
    pub fn copy(&self) -> Result<Program, AllocError>
        ensures { IfOk result (λ program. program ≡ self.now) }
    {
        Ok(Program {
            names: self.names.copy()?,
            clauses: self.clauses.copy()?,
            query: self.query.copy()?,
        })
    }
}
