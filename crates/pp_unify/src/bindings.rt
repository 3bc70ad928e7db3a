//! Bindings, as a caller sees them.
ghost use Rattle.std.specs.Prelude.{◌≡◌, ℕ, suc, ◌<◌, ◌≤◌, true, false, [], ◌∷◌, length, take, IfOk, IsTrue, All, option_map};
ghost use Rattle.pp_algebra.specs.Rows.{IsWide, IsRow};
ghost use Rattle.pp_algebra.specs.Solve.{equation, membership};
ghost use Rattle.pp_algebra.specs.Terms.{int, count, variables_all};
ghost use Rattle.pp_algebra.specs.Covers.{IsIn, RowCovers};
ghost use Rattle.pp_algebra.specs.Members.{IsInteger};
ghost use Rattle.pp_row.specs.Reading.{IsForest, forest};
ghost use Rattle.pp_heap.specs.Values.{term_at};
ghost use Rattle.pp_unify.specs.Forests.{counted_all, AreOver, pairs, AreDecided};
ghost use Rattle.pp_domain.specs.Sets.{set_of};
ghost use Rattle.pp_algebra.specs.Givens.{given};
ghost use Rattle.pp_row.specs.Columns.{set_by};
ghost use Rattle.pp_row.specs.Givens.{given_of};
ghost use Rattle.pp_unify.specs.States.{no_columns, present, value_in, in_place, IsOver, with_new, with_many, with_value, IsLonger, IsSolvedBy, domain_in, row_in, first_cell};
ghost use Rattle.pp_algebra.specs.Numbered.{counted_from};
ghost use Rattle.pp_unify.specs.Still.{AreStill};

use crate::cover::{Cover, is_covered};
use crate::pair::Scratch;
use crate::{join, still, terms, unify};
use indexmap::IndexSet;
use pp_domain::Domain;
use pp_heap::{Span, State, Value};
use pp_row::{Cell, Given, Row, Term};
use std::alloc::{AllocError, Global};
use std::marker::Model;

/// A kept state, by its place among all of them.
#[derive(Clone, Copy, Debug, PartialEq, Eq)]
pub struct Mark {
    place: usize,
}

impl Model for Mark {
    ghost use Rattle.std.specs.Prelude.{ℕ};

    ghost Value = { ℕ };

    ghost view = { λ s. s.place };

    ghost inverse = { λ n. record { place = n } };
}

/// Variables with what they are bound to, and the earlier states that can be gone back to.
///
/// A contract sees the list of the kept states, the present one last: each is the row of all variables, where
/// column v is the value of variable v. After an item that nothing solves, or want of memory, nothing is known of
/// the later states: go back to a mark.
#[derive(Debug, Drop)]
pub struct Bindings {
    state: State,
    work: Vec<Span>,
    scratch: Scratch,
    cover: Cover,
}

impl Model for Bindings {
    ghost use Rattle.std.specs.Prelude.{List};
    ghost use Rattle.pp_algebra.specs.Rows.{Row};
    ghost use Rattle.pp_unify.specs.States.{states_of, states_code};
    ghost use Rattle.pp_heap.specs.Soundness.{IsGood};

    ghost Value = { List Row };

    ghost coded = { states_code };

    ghost view = { λ s. states_of s.state };

    ghost invariant = { λ s. IsGood s.state };
}

impl Bindings {
    /// No variables.
    pub fn new(alloc: Global) -> Bindings
        ensures { result ≡ no_columns ∷ [] }
    {
        Bindings {
            state: State::new(alloc),
            work: Vec::new(alloc),
            scratch: Scratch::new(alloc),
            cover: Cover::new(alloc),
        }
    }

    /// How many variables there are.
    pub fn len(&self) -> usize
        ensures count { result ≡ count (present self.now).columns }
        ensures row { IsRow (present self.now) }
    {
        self.state.slots.len()
    }

    /// Adds a variable of this domain, and answers its number.
    pub fn add(&mut self, domain: Option<Domain>) -> Result<u32, AllocError>
        requires wide { IsWide (set_by domain) }
        ensures number { IfOk result (λ v. v ≡ count (present self.old).columns) }
        ensures added { IfOk result (λ _. present self.new ≡ with_new (present self.old) (set_by domain)) }
        ensures kept { IsLonger self.old self.new }
    {
        self.state.add(domain)
    }

    /// Adds so many variables of any domain, and answers the first one's number.
    pub fn add_many(&mut self, amount: u32) -> Result<u32, AllocError>
        ensures number { IfOk result (λ v. v ≡ count (present self.old).columns) }
        ensures added { IfOk result (λ _. present self.new ≡ with_many (present self.old) amount) }
        ensures kept { IsLonger self.old self.new }
    {
        self.state.add_many(amount)
    }

    /// Adds a variable that is bound to a term, and answers its number. The numbers of the term's variables are
    /// counted from `first`.
    pub fn keep(&mut self, term: &Term, first: u32) -> Result<u32, AllocError>
        requires over { IsOver (present self.old) (counted_from first term.now) }
        ensures number { IfOk result (λ v. v ≡ count (present self.old).columns) }
        ensures kept_term { IfOk result (λ _. present self.new ≡ with_value (present self.old) (in_place (present self.old) (counted_from first term.now))) }
        ensures kept { IsLonger self.old self.new }
    {
        let value = terms::entered(&mut self.state, term, first)?;
        terms::add_bound(&mut self.state, value)
    }

    /// Makes two terms equal, and answers false where nothing does: unification with an occurs check (Robinson, 1965).
    pub fn unify(&mut self, a: &Term, b: &Term) -> Result<bool, AllocError>
        requires left { IsOver (present self.old) a.now }
        requires right { IsOver (present self.old) b.now }
        ensures solved { IfOk result (λ b'. IsSolvedBy (present self.old) (equation (in_place (present self.old) a.now) (in_place (present self.old) b.now)) b' (present self.new)) }
        ensures kept { IsLonger self.old self.new }
    {
        self.unify_from(a, 0, b, 0)
    }

    /// Makes a goal's term and a clause's head equal, and answers false where nothing does. The numbers of the
    /// clause's variables are counted from `first`. The head is walked where it stands: of it, only the compounds
    /// that a variable is bound to are copied.
    pub fn unify_head(&mut self, goal: &Term, head: &Term, first: u32) -> Result<bool, AllocError>
        requires goal { IsOver (present self.old) goal.now }
        requires head { IsOver (present self.old) (counted_from first head.now) }
        ensures solved { IfOk result (λ b. IsSolvedBy (present self.old) (equation (in_place (present self.old) goal.now) (in_place (present self.old) (counted_from first head.now))) b (present self.new)) }
        ensures kept { IsLonger self.old self.new }
    {
        self.unify_from(goal, 0, head, first)
    }

    /// Makes two terms equal, each with the numbers of its variables counted from a first one, and answers false
    /// where nothing does. A compound `a` is copied; `b` is walked where it stands.
    pub fn unify_from(
        &mut self,
        a: &Term,
        a_first: u32,
        b: &Term,
        b_first: u32,
    ) -> Result<bool, AllocError>
        requires left { IsOver (present self.old) (counted_from a_first a.now) }
        requires right { IsOver (present self.old) (counted_from b_first b.now) }
        ensures solved { IfOk result (λ b'. IsSolvedBy (present self.old) (equation (in_place (present self.old) (counted_from a_first a.now)) (in_place (present self.old) (counted_from b_first b.now))) b' (present self.new)) }
        ensures kept { IsLonger self.old self.new }
    {
        self.unify_spans(a.cells(), a_first, b.cells(), b_first)
    }

    /// Makes two variables equal, and answers false where nothing does.
    pub fn unify_variables(&mut self, a: u32, b: u32) -> Result<bool, AllocError>
        requires left { a < count (present self.old).columns }
        requires right { b < count (present self.old).columns }
        ensures solved { IfOk result (λ b'. IsSolvedBy (present self.old) (equation (value_in (present self.old) a) (value_in (present self.old) b)) b' (present self.new)) }
        ensures kept { IsLonger self.old self.new }
    {
        unify::unify_variables(&mut self.state, &mut self.scratch, a, b)
    }

    /// Makes a variable be in a domain, and answers false where nothing does.
    pub fn narrow(&mut self, variable: u32, domain: &Domain) -> Result<bool, AllocError>
        requires within { variable < count (present self.old).columns }
        ensures solved { IfOk result (λ b. IsSolvedBy (present self.old) (membership (value_in (present self.old) variable) (set_of domain.now)) b (present self.new)) }
        ensures kept { IsLonger self.old self.new }
    {
        self.state.narrow(variable, domain)
    }

    /// Adds `amount` variables of any domain, and makes a goal's terms and a clause's head over these variables
    /// equal; false where nothing does. The goal's variables are counted from `first`. Both are walked where they
    /// stand: only the compounds that a variable is bound to are copied.
    pub fn enter(
        &mut self,
        goal: &[Cell],
        first: u32,
        head: &[Cell],
        amount: u32,
    ) -> Result<bool, AllocError>
        requires goal_whole { IsForest goal.now }
        requires head_whole { IsForest head.now }
        requires width { count (forest head.now) ≡ count (forest goal.now) }
        requires goal { AreOver (present self.old) (counted_all first (forest goal.now)) }
        requires head { (v : ℕ) → IsIn v (variables_all (forest head.now)) → v < amount }
        ensures entered { IfOk result (λ b. AreDecided (with_many (present self.old) amount) (pairs (count (present self.old).columns) (forest head.now) first (forest goal.now)) b (present self.new)) }
        ensures kept { IsLonger self.old self.new }
    {
        join::enter(
            &mut self.state,
            &mut self.scratch,
            &mut self.work,
            goal,
            first,
            head,
            amount,
        )
    }

    /// Makes two lists of terms equal, pairwise, each with the numbers of its variables counted from a first one;
    /// false where nothing does. Both are walked where they stand.
    pub fn unify_spans(
        &mut self,
        a: &[Cell],
        a_first: u32,
        b: &[Cell],
        b_first: u32,
    ) -> Result<bool, AllocError>
        requires left_whole { IsForest a.now }
        requires right_whole { IsForest b.now }
        requires width { count (forest b.now) ≡ count (forest a.now) }
        requires left { AreOver (present self.old) (counted_all a_first (forest a.now)) }
        requires right { AreOver (present self.old) (counted_all b_first (forest b.now)) }
        ensures decided { IfOk result (λ b'. AreDecided (present self.old) (pairs a_first (forest a.now) b_first (forest b.now)) b' (present self.new)) }
        ensures kept { IsLonger self.old self.new }
    {
        join::unify_lists(
            &mut self.state,
            &mut self.scratch,
            &mut self.work,
            a,
            a_first,
            b,
            b_first,
        )
    }

    /// Makes the term that begins at this cell be in a domain, and answers false where nothing does.
    pub fn narrow_at(
        &mut self,
        cells: &[Cell],
        at: usize,
        first: u32,
        domain: &Domain,
    ) -> Result<bool, AllocError>
        requires whole { IsForest cells.now }
        requires within { at < length cells.now }
        requires over { AreOver (present self.old) (counted_all first (forest cells.now)) }
        ensures solved { IfOk result (λ b. IsSolvedBy (present self.old) (membership (in_place (present self.old) (counted_from first (term_at cells.now at))) (set_of domain.now)) b (present self.new)) }
        ensures kept { IsLonger self.old self.new }
    {
        terms::narrow(&mut self.state, cells, at, first, domain)
    }

    /// Makes the term that begins at this cell an integer, and answers false where nothing does.
    pub fn equate_at(
        &mut self,
        cells: &[Cell],
        at: usize,
        first: u32,
        value: i64,
    ) -> Result<bool, AllocError>
        requires whole { IsForest cells.now }
        requires within { at < length cells.now }
        requires over { AreOver (present self.old) (counted_all first (forest cells.now)) }
        requires integer { IsInteger value }
        ensures solved { IfOk result (λ b. IsSolvedBy (present self.old) (equation (in_place (present self.old) (counted_from first (term_at cells.now at))) (int value)) b (present self.new)) }
        ensures kept { IsLonger self.old self.new }
    {
        terms::equate(&mut self.state, &mut self.scratch, cells, at, first, value)
    }

    /// The present state's place.
    pub fn mark(&self) -> Mark
        ensures place { suc result ≡ length self.now }
        ensures row { IsRow (present self.now) }
    {
        Mark {
            place: self.state.trail.len(),
        }
    }

    /// Goes back to a state that was marked. It costs the changes since then.
    pub fn undo(&mut self, mark: Mark)
        requires kept { mark < length self.old }
        ensures { self.new ≡ take (suc mark) self.old }
    {
        self.state.undo(mark.place);
    }

    /// Whether the variables below a number are known to be what they were in a state that was marked: each the same
    /// integer, free or not, with a finite domain or none. What it answers false for may be the same, too: a variable
    /// was bound, or got its first domain. It costs the changes since the mark.
    pub fn is_still(&self, mark: Mark, below: usize) -> bool
        requires kept { mark < length self.now }
        requires below { below ≤ count (present (take (suc mark) self.now)).columns }
        ensures still { result ≡ true → AreStill below (present (take (suc mark) self.now)) (present self.now) }
        ensures changed { result ≡ false → suc mark < length self.now }
        ensures there { below ≤ count (present self.now).columns }
    {
        still::is_still(&self.state, mark.place, below)
    }

    /// What the top of a term is.
    pub fn value(&self, term: &Term) -> Given
        requires over { IsOver (present self.now) term.now }
        ensures { given_of result ≡ given (present self.now).domains (in_place (present self.now) term.now) }
    {
        self.value_at(term.cells(), 0, 0)
    }

    /// What the top of the term is that begins at this cell.
    pub fn value_at(&self, cells: &[Cell], at: usize, first: u32) -> Given
        requires whole { IsForest cells.now }
        requires within { at < length cells.now }
        requires over { AreOver (present self.now) (counted_all first (forest cells.now)) }
        ensures given { given_of result ≡ given (present self.now).domains (in_place (present self.now) (counted_from first (term_at cells.now at))) }
        ensures row { IsRow (present self.now) }
    {
        match terms::top(&self.state, cells, at, first) {
            Value::Int(value) => Given::Int(value),
            Value::Variable(free) => {
                if terms::domain_of(&self.state, free).is_some() {
                    Given::Ranged
                } else {
                    Given::Free
                }
            }
            _ => Given::Other,
        }
    }

    /// The first cell of the term that begins at this cell, with all bindings in place; a free variable has none.
    pub fn first_cell(&self, cells: &[Cell], at: usize, first: u32) -> Option<Cell>
        requires whole { IsForest cells.now }
        requires within { at < length cells.now }
        requires over { AreOver (present self.now) (counted_all first (forest cells.now)) }
        ensures { result ≡ first_cell (in_place (present self.now) (counted_from first (term_at cells.now at))) }
    {
        terms::first_cell(&self.state, cells, at, first)
    }

    /// The domain of a term that is a free variable with a finite domain.
    pub fn domain_of(&self, term: &Term) -> Option<&Domain>
        requires over { IsOver (present self.now) term.now }
        ensures { option_map (λ d. set_of d.now) result ≡ domain_in (present self.now) (in_place (present self.now) term.now) }
    {
        self.domain_at(term.cells(), 0, 0)
    }

    /// The same of the term that begins at this cell.
    pub fn domain_at(&self, cells: &[Cell], at: usize, first: u32) -> Option<&Domain>
        requires whole { IsForest cells.now }
        requires within { at < length cells.now }
        requires over { AreOver (present self.now) (counted_all first (forest cells.now)) }
        ensures { option_map (λ d. set_of d.now) result ≡ domain_in (present self.now) (in_place (present self.now) (counted_from first (term_at cells.now at))) }
    {
        match terms::top(&self.state, cells, at, first) {
            Value::Variable(free) => terms::domain_of(&self.state, free),
            _ => None,
        }
    }

    /// The row of these terms, with all bindings in place.
    pub fn resolve_row(&self, columns: &[Term]) -> Result<Row, AllocError>
        requires over { All (IsOver (present self.now)) columns.now }
        ensures { IfOk result (λ r. r ≡ row_in (present self.now) columns.now) }
    {
        let alloc = *self.state.heap.allocator();
        let mut numbers = IndexSet::new(alloc);
        let mut numbered = Vec::with_capacity(alloc, columns.len())?;
        for column in columns {
            let resolved = terms::resolved(&self.state, column)?;
            numbered.push(resolved.numbered(&mut numbers)?)?;
        }
        Ok(Row::from_numbered(numbered, terms::domains_of(&self.state, &numbers)?))
    }

    /// Whether the row is known to cover that of these terms, with all bindings in place. What it answers false for may
    /// be covered, too, where one of the terms is a compound. It costs a walk of the row up to the first difference,
    /// and takes no memory once its stacks have grown.
    pub fn is_covered(&mut self, columns: &[Term], by: &Row) -> Result<bool, AllocError>
        requires over { All (IsOver (present self.old)) columns.now }
        ensures covers { IfOk result (λ is. IsTrue is → RowCovers by.now (row_in (present self.old) columns.now)) }
        ensures same { self.new ≡ self.old }
    {
        is_covered(&self.state, &mut self.cover, columns, by)
    }

    /// A copy, with all its kept states.
    pub fn copy(&self) -> Result<Bindings, AllocError>
        ensures { IfOk result (λ b. b ≡ self.now) }
    {
        let alloc = *self.work.allocator();
        Ok(Bindings {
            state: self.state.copy()?,
            work: Vec::new(alloc),
            scratch: Scratch::new(alloc),
            cover: Cover::new(alloc),
        })
    }
}
