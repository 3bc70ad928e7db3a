//! The clauses of one predicate, with an index by first argument.
ghost use Rattle.std.specs.Prelude.{◌≡◌, true, ◌+◌, ◌<◌, ◌^◌, ◌++◌, [], ◌∷◌, Some, length, slice_get, IfOk, OnOk, OnErr, IfSome, MatchOption};
ghost use Rattle.pp_clause.specs.Table.{AreOut, IsNextTop};

use crate::First;
use crate::index::Index;
use std::alloc::{AllocError, Global};
use std::marker::Model;

/// The numbers of a predicate's clauses in order, and the tops of their first arguments. A contract sees both lists.
#[derive(Debug, Drop)]
pub(crate) struct Group {
    numbers: Vec<u32>,
    index: Index,
}

impl Model for Group {
    ghost use Rattle.std.specs.Prelude.{◌≡◌, ℕ, List, length};
    ghost use Rattle.std.specs.Coded.{codes};
    ghost use Rattle.pp_clause.specs.declared.first.First.{First};
    ghost use Rattle.pp_clause.specs.contracts.first.First as first;

    ghost Value = { List ℕ × List First };

    ghost coded = { Prim.hlevel (codes, first.the_row.coded) };

    ghost view = { λ s. (s.numbers.items, s.index) };

    ghost invariant = { λ s. length s.numbers.items ≡ length s.index };
}

impl Group {
    /// No clauses.
    pub(crate) fn new(alloc: Global) -> Group
        ensures { result ≡ ([], []) }
    {
        Group {
            numbers: Vec::new(alloc),
            index: Index::new(alloc),
        }
    }

    /// How many clauses there are.
    pub(crate) fn len(&self) -> u32
        ensures len { result ≡ length self.now.1 }
        ensures same { length self.now.0 ≡ length self.now.1 }
    {
        self.index.len()
    }

    /// Adds a clause behind the others, and answers its place.
    pub(crate) fn push(&mut self, number: u32, first: First) -> Result<u32, AllocError>
        ensures added { OnOk result (self.new ≡ (self.old.0 ++ number ∷ [], self.old.1 ++ first ∷ [])) }
        ensures place { IfOk result (λ place. place ≡ length self.old.1) }
        ensures err { OnErr result (self.new ≡ self.old) }
    {
        self.numbers.reserve(1)?;
        let place = self.index.push(first)?;
        self.numbers.push(number)?;
        Ok(place)
    }

    /// The number of the clause at a place.
    pub(crate) fn number(&self, place: u32) -> u32
        requires { place < length self.now.1 }
        ensures { slice_get self.now.0 place ≡ Some result }
    {
        self.numbers[place as usize]
    }

    /// The next place, from `from` on, whose top may match.
    pub(crate) fn place_from(&self, first: First, from: u32) -> Option<u32>
        ensures place { MatchOption result (AreOut first self.now.1 from (length self.now.1)) (IsNextTop first self.now.1 from) }
        ensures small { IfSome result (λ place. place + 1 < 2 ^ 32) }
    {
        self.index.place_from(first, from)
    }

    /// Whether it is known that no top from this place on may match. It looks at no more than a few.
    pub(crate) fn is_end(&self, first: First, from: u32) -> bool
        ensures { result ≡ true → AreOut first self.now.1 from (length self.now.1) }
    {
        self.index.is_end(first, from)
    }
}
