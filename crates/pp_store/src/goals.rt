//! The annotated goals of a query, by their numbers and by the variables that they name.
ghost use Rattle.std.specs.Prelude.{◌≡◌, ◌≤◌, ◌<◌, ◌+◌, ◌^◌, ◌++◌, ◌∷◌, ℕ, [], IfOk, OnOk, map, length, nat_eq};
ghost use Rattle.pp_algebra.specs.Canon.{has};
ghost use Rattle.pp_algebra.specs.Covers.{IsIn};
ghost use Rattle.pp_algebra.specs.Terms.{variables_all};
ghost use Rattle.pp_row.specs.Columns.{trees_of};
ghost use Rattle.pp_term.specs.WellFormed.{AreBelow, IsQuery};
ghost use Rattle.pp_store.specs.Occurring.{Stands, HasMore};
ghost use Rattle.pp_store.specs.Queries.{asked_by, goals_in, IsGoalIn, IsGoalAt, AreArgumentsOf};
ghost use Rattle.pp_store.specs.Ascending.{IsAscending};
ghost use Rattle.pp_store.specs.Naming.{AreNamed, AreCandidates};

use crate::occurrences::Occurrences;
use pp_term::{Item, Mode, Query, Shape, Term};
use std::alloc::{AllocError, Global};
use std::marker::Model;

/// An annotated goal: what it calls, its arguments, and how its answers are used.
#[derive(Clone, Copy, Debug)]
pub struct Annotated<'q> {
    pub shape: Shape,
    pub arguments: &'q [Term],
    pub mode: Mode,
}

/// The annotated goals of a query, numbered from 1 in textual order. A contract sees the query.
#[derive(Debug, Drop)]
pub struct GoalIndex<'q> {
    query: &'q Query,
    asked: Vec<Annotated<'q>>,
    // of each of the query's variables, the goals that name it
    naming: Occurrences,
}

impl<'q> Model for GoalIndex<'q> {
    ghost use Rattle.pp_term.specs.declared.query.Query.{Query as QueryValue};
    ghost use Rattle.std.specs.Coded.{codes};
    ghost use Rattle.pp_row.specs.Codes.{tree_code};
    ghost use Rattle.pp_term.specs.contracts.query.Query as whole;
    ghost use Rattle.pp_store.specs.Naming.{IsIndex};

    ghost Value = { QueryValue };

    ghost coded = { Prim.hlevel (codes, tree_code, whole.the_row.coded) };

    ghost view = { λ s. s.query.now };

    ghost invariant = { λ s. IsIndex s.query.now s.asked.items s.naming };
}

/// Notes that the goal of this number names the variables of its arguments.
fn name_all(naming: &mut Occurrences, arguments: &[Term], number: u32) -> Result<(), AllocError>
    requires below { AreBelow (length naming.old) arguments.now }
    ensures more { HasMore (number ∷ []) naming.old naming.new }
    ensures named { OnOk result ((v : ℕ) → IsIn v (variables_all (trees_of arguments.now))
        → Stands naming.new v number) }
{
    for argument in arguments {
        naming.add(argument, number)?;
    }
    Ok(())
}

impl<'q> GoalIndex<'q> {
    /// Those of a query.
    pub fn new(alloc: Global, query: &'q Query) -> Result<GoalIndex<'q>, AllocError>
        requires query { IsQuery query.now }
        ensures { IfOk result (λ goals. goals ≡ query.now) }
    {
        let mut asked = Vec::new(alloc);
        let mut naming = Occurrences::new(alloc);
        naming.grow(query.vars as usize)?;
        for item in query.items.as_slice() {
            if let Item::Infer(shape, arguments, mode) = item {
                let number = u32::try_from(asked.len() + 1).map_err(|_| AllocError)?;
                let goal = Annotated {
                    shape: *shape,
                    arguments: arguments.as_slice(),
                    mode: *mode,
                };
                name_all(&mut naming, goal.arguments, number)?;
                asked.push(goal)?;
            }
        }
        Ok(GoalIndex {
            query,
            asked,
            naming,
        })
    }

    /// How many there are.
    pub fn count(&self) -> u32
        ensures { result ≡ length (goals_in self.now) }
    {
        self.asked.len() as u32
    }

    /// The goal of this number.
    pub fn at(&self, number: u32) -> Annotated<'q>
        requires goal { IsGoalIn self.now number }
        ensures goal { IsGoalAt self.now number (asked_by result) }
        ensures formed { AreArgumentsOf self.now result }
    {
        self.asked[number as usize - 1]
    }

    /// The goals that name one of these variables, ascending.
    pub(crate) fn naming(&self, variables: &[u32]) -> Result<Vec<u32>, AllocError>
        requires within { (v : ℕ) → IsIn v variables.now → v < self.now.vars }
        ensures { IfOk result (λ ks. AreCandidates self.now variables.now ks.items) }
    {
        let mut numbers = self.naming.gather(variables)?;
        numbers.sort()?;
        Ok(Vec::from_slice(*self.asked.allocator(), numbers.as_slice())?)
    }
}
