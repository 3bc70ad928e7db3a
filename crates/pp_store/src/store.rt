//! The store, as a caller sees it.
ghost use Rattle.std.specs.Prelude.{◌≡◌, ◌⊎◌, [], IfOk, IfSome, OnErr, MatchOption, length};
ghost use Rattle.pp_algebra.specs.Terms.{count};
ghost use Rattle.pp_propagation.specs.Stores.{Begins, BeginsNowhere, face as face_of, apply as apply_to};
ghost use Rattle.pp_propagation.specs.Turns.{woken};
ghost use Rattle.pp_term.specs.WellFormed.{IsQuery};
ghost use Rattle.pp_store.specs.Queries.{query_by, goals_in, IsGoalIn, AtGoal};
ghost use Rattle.pp_store.specs.Kept.{IsStoreOf};

use crate::begin::solve_items;
use crate::changed::{changed, faces};
use crate::goals::GoalIndex;
use crate::pattern::Pattern;
use crate::rows::variables;
use pp_term::{Numbers, Query, Row};
use pp_unify::Bindings;
use std::alloc::{AllocError, Global};
use std::marker::Model;

/// What is known of the variables of a query. A contract sees it as a row with a column for each of them.
#[derive(Debug, Drop)]
pub struct Store {
    pattern: Pattern,
}

impl Model for Store {
    ghost use Rattle.pp_store.specs.Kept.{Kept, kept_code};
    ghost use Rattle.pp_store.specs.Patterns.{row_in, IsSound};

    ghost Value = { Kept };

    ghost coded = { kept_code };

    ghost view = { λ s. record { row = row_in s.pattern } };

    ghost invariant = { λ s. IsSound s.pattern };
}

impl Store {
    /// The store of a query before any of its goals had a turn: its equations and domain items are solved, wherever
    /// they stand. `None` exactly where they have no solution.
    pub fn begin(alloc: Global, query: &Query) -> Result<Option<Store>, AllocError>
        requires query { IsQuery query.now }
        ensures begins { IfOk result (λ o.
            MatchOption o (BeginsNowhere (query_by query.now)) (λ s. Begins (query_by query.now) s.row)) }
        ensures of_query { IfOk result (λ o. IfSome o (IsStoreOf query.now)) }
    {
        let mut bindings = Bindings::new(alloc);
        bindings.add_many(query.vars)?;
        if !solve_items(&mut bindings, query.items.as_slice())? {
            return Ok(None);
        }
        let columns = variables(alloc, query.vars)?;
        let row = bindings.resolve_row(columns.as_slice())?;
        Ok(Some(Store {
            pattern: Pattern::new(alloc, &row)?,
        }))
    }

    /// The row of the query's variables. It costs all of it.
    pub fn row(&self) -> Result<Row, AllocError>
        ensures { IfOk result (λ r. r ≡ self.now.row) }
    {
        self.pattern.row()
    }

    /// A copy. It costs all of it.
    pub fn copy(&self) -> Result<Store, AllocError>
        ensures { IfOk result (λ copy. copy ≡ self.now) }
    {
        Ok(Store {
            pattern: Pattern::new(self.pattern.alloc, &self.pattern.row()?)?,
        })
    }

    /// The face of the goal of this number. It costs the face.
    pub fn face(&self, goals: &GoalIndex, goal: u32) -> Result<Row, AllocError>
        requires of_query { IsStoreOf goals.now self.now }
        requires goal { IsGoalIn goals.now goal }
        ensures { IfOk result (λ r. AtGoal goals.now goal (λ g. r ≡ face_of self.now.row g)) }
    {
        self.pattern.face(goals.at(goal).arguments)
    }

    /// Applies a row to the goal of this number, and answers the goals whose face that changed, ascending. The row has
    /// a column for each variable of the goal's face.
    ///
    /// After want of memory the store is as before, or the row is applied.
    pub fn apply(
        &mut self,
        goals: &GoalIndex,
        goal: u32,
        given: &Row,
    ) -> Result<Numbers, AllocError>
        requires of_query { IsStoreOf goals.now self.old }
        requires goal { IsGoalIn goals.now goal }
        requires given { AtGoal goals.now goal
            (λ g. count given.now.columns ≡ length (face_of self.old.row g).domains) }
        ensures store { IfOk result (λ _.
            AtGoal goals.now goal (λ g. self.new.row ≡ apply_to self.old.row g given.now)) }
        ensures changed { IfOk result (λ ks. ks ≡ woken self.old.row self.new.row [] 1 (goals_in goals.now)) }
        ensures of_query { IsStoreOf goals.now self.new }
        ensures err { OnErr result ((self.new.row ≡ self.old.row)
            ⊎ AtGoal goals.now goal (λ g. self.new.row ≡ apply_to self.old.row g given.now)) }
    {
        let change = self.pattern.change(goals.at(goal).arguments, given)?;
        let candidates = goals.naming(change.touched.as_slice())?;
        let before = faces(goals, &self.pattern, &candidates)?;
        self.pattern.make(change)?;
        let changed = changed(goals, &self.pattern, &candidates, &before)?;
        Ok(Numbers::from_vec(changed))
    }
}
