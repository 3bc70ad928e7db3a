//! The places of clauses that may match.
ghost use Rattle.std.specs.Prelude.{◌≡◌, drop, slice_get};
ghost use Rattle.pp_term.specs.Meanings.{predicate_of, program};
ghost use Rattle.pp_clause.specs.Predicates.{Names};
ghost use Rattle.pp_clause.specs.Firsts.{candidates as candidates_of};

use crate::{Clauses, First};
use pp_term::Pred;
use std::marker::Model;

/// Ascending places of clauses that may match a goal. A contract sees the list of those that are left.
#[derive(Debug, Drop)]
pub struct Candidates<'a> {
    clauses: &'a Clauses,
    pred: Pred,
    predicate: u32,
    first: First,
    from: u32,
}

impl<'a> Model for Candidates<'a> {
    ghost use Rattle.std.specs.Prelude.{ℕ, List, drop};
    ghost use Rattle.pp_term.specs.Meanings.{predicate_of, program};
    ghost use Rattle.pp_clause.specs.Predicates.{Names};
    ghost use Rattle.pp_clause.specs.Firsts.{candidates_from};

    ghost Value = { List ℕ };

    ghost view = { λ s. candidates_from s.first s.from (drop s.from (program s.clauses.now (predicate_of s.pred))) };

    ghost invariant = { λ s. Names s.clauses.now s.predicate s.pred };
}

impl<'a> Candidates<'a> {
    /// Those of a predicate with this number.
    pub(crate) fn new(
        clauses: &'a Clauses,
        pred: Pred,
        predicate: u32,
        first: First,
    ) -> Candidates<'a>
        requires { Names clauses.now predicate pred }
        ensures { result ≡ candidates_of first (program clauses.now (predicate_of pred)) }
    {
        Candidates {
            clauses,
            pred,
            predicate,
            first,
            from: 0,
        }
    }

    /// The next place, which is taken out of the list.
    pub fn next(&mut self) -> Option<u32>
        ensures next { result ≡ slice_get self.old 0 }
        ensures rest { self.new ≡ drop 1 self.old }
    {
        let place = self
            .clauses
            .place_from(self.predicate, self.first, self.from)?;
        self.from = place + 1;
        Some(place)
    }
}
