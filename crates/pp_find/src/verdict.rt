//! Verdicts.
ghost use Rattle.std.specs.Prelude.{◌≡◌, ◌↔◌, IsTrue, IfOk};

use pp_row::Row;
use std::alloc::AllocError;

/// What a search says of its goal.
#[derive(Debug, Drop)]
pub enum Verdict {
    /// The goal has no answer.
    Fail,
    /// The answers say no more than the call.
    Same,
    /// The call is narrowed to this row.
    Narrow(Row),
    /// The mode has nothing to say.
    Nothing,
    /// A loose end leaves it open.
    Unfinished,
}

impl Verdict {
    /// A copy.
    pub fn copy(&self) -> Result<Verdict, AllocError>
        ensures { IfOk result (λ verdict. verdict ≡ self.now) }
    {
        Ok(match self {
            Verdict::Fail => Verdict::Fail,
            Verdict::Same => Verdict::Same,
            Verdict::Narrow(row) => Verdict::Narrow(row.copy()?),
            Verdict::Nothing => Verdict::Nothing,
            Verdict::Unfinished => Verdict::Unfinished,
        })
    }

    /// Whether both are one verdict.
    pub fn same(&self, other: &Verdict) -> bool
        ensures { IsTrue result ↔ (self.now ≡ other.now) }
    {
        match (self, other) {
            (Verdict::Narrow(row), Verdict::Narrow(other_row)) => row.same(other_row),
            (Verdict::Fail, Verdict::Fail)
            | (Verdict::Same, Verdict::Same)
            | (Verdict::Nothing, Verdict::Nothing)
            | (Verdict::Unfinished, Verdict::Unfinished) => true,
            _ => false,
        }
    }
}
