//! The engine: a place in a search tree.
ghost use Rattle.std.specs.Prelude.{◌≡◌, ◌<◌, [], ◌∷◌, ◌++◌, true, false, length, IfOk, OnOk, OnErr, IsTrue};
ghost use Rattle.pp_algebra.specs.Covers.{RowCovers};
ghost use Rattle.pp_sld.specs.Leaves.{leaf_row};
ghost use Rattle.pp_resolve.specs.Kept.{kept_of};
ghost use Rattle.pp_resolve.specs.Links.{IsRest};
ghost use Rattle.pp_resolve.specs.Engines.{goal_of, row_of, place_of, IsKept, IsGood, IsSameSearch, IsSamePlace, IsPlaceOf, BeginsAt, HasMoreLinks, IsLinkOf};
ghost use Rattle.pp_resolve.specs.Events.{without};

use crate::history::{Front, History, Rest};
use crate::root::Root;
use pp_clause::Clauses;
use pp_row::Row;
use std::alloc::AllocError;

/// The program, the goal that is searched and the call's columns, what can be gone back to, and what is to do.
#[derive(Drop)]
pub(crate) struct Engine<'a> {
    pub(crate) clauses: &'a Clauses,
    pub(crate) root: Root,
    pub(crate) columns: Row,
    pub(crate) history: History,
    pub(crate) front: Front,
}

impl<'a> Engine<'a> {
    /// Keeps the present place, to which `back` returns.
    pub(crate) fn save(&mut self) -> Result<(), AllocError>
        requires good { IsGood self.old }
        ensures good { IsGood self.new }
        ensures same { IsSameSearch self.old self.new }
        ensures here { (place_of self.new).here ≡ (place_of self.old).here }
        ensures saved { OnOk result ((place_of self.new).above ≡ (place_of self.old).here ∷ (place_of self.old).above) }
        ensures err { OnErr result ((place_of self.new).above ≡ (place_of self.old).above) }
    {
        self.history.save(self.front)
    }

    /// Returns to the place that was kept last; false exactly where none was.
    pub(crate) fn back(&mut self) -> bool
        requires ready { IsKept self.old }
        ensures same { IsSameSearch self.old self.new }
        ensures none { result ≡ false → (place_of self.old).above ≡ [] }
        ensures good { result ≡ true → IsGood self.new }
        ensures back { result ≡ true → (place_of self.old).above
            ≡ (place_of self.new).here ∷ (place_of self.new).above }
        ensures stays { result ≡ false → place_of self.new ≡ place_of self.old }
        ensures kept { result ≡ false → IsGood self.old → IsGood self.new }
    {
        match self.history.back() {
            None => false,
            Some(front) => {
                self.front = front;
                true
            }
        }
    }

    /// The goals that begin with the one at this place: a suspended one, or the first that is left.
    pub(crate) fn rest_at(&self, at: Option<usize>) -> Rest
        requires there { IsPlaceOf self.now at }
        ensures { BeginsAt self.now at result }
    {
        match at {
            None => self.front.rest,
            Some(place) => self.history.suspended.goals[place].rest,
        }
    }

    /// Takes the goal at this place away.
    pub(crate) fn leave(&mut self, at: Option<usize>) -> Result<(), AllocError>
        requires good { IsGood self.old }
        requires there { IsPlaceOf self.old at }
        ensures good { IsGood self.new }
        ensures same { IsSameSearch self.old self.new }
        ensures bindings { self.new.history.bindings ≡ self.old.history.bindings }
        ensures above { (place_of self.new).above ≡ (place_of self.old).above }
        ensures choices { self.new.history.choices ≡ self.old.history.choices }
        ensures left { OnOk result ((place_of self.new).here ≡ without self.old at (row_of self.old)) }
        ensures err { OnErr result (place_of self.new ≡ place_of self.old) }
        ensures kept { OnErr result (kept_of self.new.history ≡ kept_of self.old.history) }
        ensures front { OnErr result (self.new.front ≡ self.old.front) }
    {
        match at {
            None => {
                self.front.rest.from += 1;
                self.front.selected = None;
                Ok(())
            }
            Some(place) => {
                self.history.resume(place)?;
                self.front.waiting -= 1;
                self.front.selected = None;
                Ok(())
            }
        }
    }

    /// Puts a link behind the others, and answers its number.
    pub(crate) fn link(&mut self, rest: Rest) -> Result<u32, AllocError>
        requires good { IsGood self.old }
        requires rest { IsRest self.old.clauses.now (goal_of self.old) (length self.old.history.links.items) rest }
        requires some { rest.from < rest.to }
        ensures same { IsSamePlace self.old self.new }
        ensures front { self.new.front ≡ self.old.front }
        ensures suspended { self.new.history.suspended ≡ self.old.history.suspended }
        ensures number { IfOk result (λ n. n ≡ length self.new.history.links.items) }
        ensures links { OnOk result (self.new.history.links.items ≡ self.old.history.links.items ++ rest ∷ []) }
        ensures more { HasMoreLinks self.old self.new }
    {
        let number = u32::try_from(self.history.links.len()).map_err(|_| AllocError)?;
        let next = number.checked_add(1).ok_or(AllocError)?;
        self.history.link(rest)?;
        Ok(next)
    }

    /// The link of these goals, which is one that there is where none of them is of their own body.
    pub(crate) fn link_of(&mut self, rest: Rest) -> Result<u32, AllocError>
        requires good { IsGood self.old }
        requires rest { IsRest self.old.clauses.now (goal_of self.old) (length self.old.history.links.items) rest }
        ensures same { IsSamePlace self.old self.new }
        ensures front { self.new.front ≡ self.old.front }
        ensures suspended { self.new.history.suspended ≡ self.old.history.suspended }
        ensures links { HasMoreLinks self.old self.new }
        ensures number { IfOk result (λ n. IsLinkOf self.old self.new rest n) }
    {
        if rest.from == rest.to {
            return Ok(rest.next);
        }
        self.link(rest)
    }

    /// The row of the branch.
    pub(crate) fn row(&self) -> Result<Row, AllocError>
        requires good { IsGood self.now }
        ensures { IfOk result (λ r. r ≡ leaf_row (place_of self.now).here) }
    {
        self.history.bindings.resolve_row(self.columns.columns())
    }

    /// Whether the row is known to cover the one that the branch has come to.
    pub(crate) fn is_covered(&mut self, by: &Row) -> Result<bool, AllocError>
        requires good { IsGood self.old }
        ensures good { IsGood self.new }
        ensures same { IsSameSearch self.old self.new }
        ensures place { place_of self.new ≡ place_of self.old }
        ensures covers { IfOk result (λ is. IsTrue is → RowCovers by.now (leaf_row (place_of self.old).here)) }
    {
        self.history.bindings.is_covered(self.columns.columns(), by)
    }
}
