//! The clauses of a program.
ghost use Rattle.std.specs.Prelude.{◌≡◌, true, ◌+◌, ◌≤◌, ◌<◌, ◌^◌, ℕ, ◌++◌, [], ◌∷◌, Some, length, map, slice_get, OnOk, IfOk, OnErr, IfSome, MatchOption};
ghost use Rattle.pp_algebra.specs.Canon.{place as place_in};
ghost use Rattle.pp_row.specs.Columns.{trees_of};
ghost use Rattle.pp_row.specs.Reading.{IsForest, forest};
ghost use Rattle.pp_term.specs.declared.clause.Clause.{Clause as ClauseValue};
ghost use Rattle.pp_term.specs.declared.clause.Goal.{Goal as GoalValue};
ghost use Rattle.pp_term.specs.declared.pred.Pred.{Pred as PredValue};
ghost use Rattle.pp_term.specs.Meanings.{predicate_of, program};
ghost use Rattle.pp_term.specs.WellFormed.{IsClause};
ghost use Rattle.pp_clause.specs.Predicates.{Names, same_pred};
ghost use Rattle.pp_clause.specs.Places.{IsClauseAt, counted_clause};
ghost use Rattle.pp_clause.specs.Firsts.{candidates as candidates_of, AreLeftOut, IsNextPlace};
ghost use Rattle.pp_clause.specs.Goals.{IsGoalAt};
ghost use Rattle.pp_clause.specs.Table.{pred_of, IsSetOf, AddsEmpty};

use crate::code::{Code, Coded, Key, code_clause, first, piece};
use crate::fresh::fresh_clause;
use crate::group::Group;
use crate::{Candidates, First, GoalAt, Kind};
use indexmap::IndexSet;
use pp_domain::Domain;
use pp_row::Cell;
use pp_term::{Clause, Goal, Pred};
use std::alloc::{AllocError, Global};
use std::marker::Model;

/// The clauses of a program, in textual order. A contract sees their list; each is well formed.
///
/// A search walks them without copying. It knows a predicate by its number and a clause by its number among all.
#[derive(Debug, Drop)]
pub struct Clauses {
    clauses: Vec<Clause>,
    // Those that an `add` without memory left are behind the known ones.
    predicates: IndexSet<Key>,
    known: u32,
    groups: Vec<Group>,
    cells: Vec<Cell>,
    coded: Vec<Coded>,
}

impl Model for Clauses {
    ghost use Rattle.std.specs.Prelude.{List, map};
    ghost use Rattle.std.specs.Coded.{codes};
    ghost use Rattle.pp_term.specs.declared.clause.Clause.{Clause};
    ghost use Rattle.pp_term.specs.contracts.clause.Clause as clause;
    ghost use Rattle.pp_row.specs.Codes.{tree_code};

    ghost Value = { List Clause };

    ghost coded = { Prim.hlevel (codes, tree_code, clause.the_row.coded) };

    ghost view = { λ s. s.clauses.items };

    ghost use Rattle.pp_clause.specs.Table.{IsTable, pred_of};

    ghost invariant = { λ s. IsTable s.clauses.items (map pred_of s.predicates.keys) s.known s.groups.items s.cells.items s.coded.items };
}

impl Clauses {
    /// No clauses.
    pub fn new(alloc: Global) -> Clauses
        ensures { result ≡ [] }
    {
        Clauses {
            clauses: Vec::new(alloc),
            predicates: IndexSet::new(alloc),
            known: 0,
            groups: Vec::new(alloc),
            cells: Vec::new(alloc),
            coded: Vec::new(alloc),
        }
    }

    /// Adds a clause behind the others, and answers its place among those of its predicate.
    pub fn add(&mut self, clause: Clause) -> Result<u32, AllocError>
        requires clause { IsClause clause }
        ensures added { OnOk result (self.new ≡ self.old ++ clause ∷ []) }
        ensures place { IfOk result (λ k. k ≡ length (program self.old (predicate_of clause.pred))) }
        ensures err { OnErr result (self.new ≡ self.old) }
    {
        // What an `add` without memory left is let go.
        self.predicates.truncate(self.known as usize);
        self.coded.truncate(self.clauses.len());
        let number = u32::try_from(self.clauses.len() + 1).map_err(|_| AllocError)? - 1;
        let coded = code_clause(&mut self.cells, &mut self.predicates, &clause)?;
        let known = u32::try_from(self.predicates.len()).map_err(|_| AllocError)?;
        make_groups(&mut self.groups, known as usize)?;
        let group = coded.predicate as usize;
        self.coded.push(coded)?;
        self.clauses.reserve(1)?;
        let place = self.groups[group].push(number, first(clause.head.as_slice()))?;
        self.clauses.push(clause)?;
        self.known = known;
        Ok(place)
    }

    /// How many clauses there are.
    pub fn len(&self) -> usize
        ensures { result ≡ length self.now }
    {
        self.clauses.len()
    }

    /// How many clauses the predicate has.
    pub fn count(&self, pred: Pred) -> u32
        ensures { result ≡ length (program self.now (predicate_of pred)) }
    {
        self.count_at(self.predicate(pred))
    }

    /// The clause at a place of its predicate.
    pub fn get(&self, pred: Pred, place: u32) -> &Clause
        requires { place < length (program self.now (predicate_of pred)) }
        ensures { (number : ℕ) × IsClauseAt self.now pred place number result.now }
    {
        let number = self.number(self.predicate(pred), place);
        &self.clauses[number as usize]
    }

    /// The places, in ascending order, of the predicate's clauses that may match a goal with this first argument.
    pub fn candidates(&self, pred: Pred, first: First) -> Candidates<'_>
        ensures { result ≡ candidates_of first (program self.now (predicate_of pred)) }
    {
        let predicate = self.predicate(pred);
        Candidates::new(self, pred, predicate, first)
    }

    /// The clause at a place of its predicate, with the numbers of its variables counted from `from`.
    pub fn fresh(&self, pred: Pred, place: u32, from: u32) -> Result<Clause, AllocError>
        requires place { place < length (program self.now (predicate_of pred)) }
        requires fits { (n : ℕ) (c : ClauseValue) → IsClauseAt self.now pred place n c → from + c.vars < 2 ^ 32 }
        ensures { IfOk result (λ fresh. (n : ℕ) × (c : ClauseValue) × IsClauseAt self.now pred place n c × (fresh ≡ counted_clause from c)) }
    {
        fresh_clause(*self.clauses.allocator(), self.get(pred, place), from)
    }

    /// A copy.
    pub fn copy(&self) -> Result<Clauses, AllocError>
        ensures { IfOk result (λ clauses. clauses ≡ self.now) }
    {
        let mut copy = Clauses::new(*self.clauses.allocator());
        for clause in &self.clauses {
            copy.add(clause.copy()?)?;
        }
        Ok(copy)
    }

    /// The number of a predicate, by which a search knows it.
    pub fn predicate(&self, pred: Pred) -> u32
        ensures { Names self.now result pred }
    {
        place_of(&self.predicates, pred).min(self.known as usize) as u32
    }

    /// How many clauses the predicate of this number has.
    pub fn count_at(&self, predicate: u32) -> u32
        ensures { (p : PredValue) → Names self.now predicate p → result ≡ length (program self.now (predicate_of p)) }
    {
        let predicate = predicate as usize;
        if predicate < self.groups.len() {
            self.groups[predicate].len()
        } else {
            0
        }
    }

    /// The number, among all clauses, of the clause at a place of the predicate of this number.
    pub fn number(&self, predicate: u32, place: u32) -> u32
        requires { (p : PredValue) × Names self.now predicate p × (place < length (program self.now (predicate_of p))) }
        ensures within { result < length self.now }
        ensures clause { (p : PredValue) → Names self.now predicate p → (c : ClauseValue) × IsClauseAt self.now p place result c }
    {
        self.groups[predicate as usize].number(place)
    }

    /// The next place, from `from` on, of a clause that may match a goal with this first argument.
    pub fn place_from(&self, predicate: u32, first: First, from: u32) -> Option<u32>
        ensures place { (p : PredValue) → Names self.now predicate p → MatchOption result
            (AreLeftOut first (program self.now (predicate_of p)) from (length (program self.now (predicate_of p))))
            (IsNextPlace first (program self.now (predicate_of p)) from) }
        ensures small { IfSome result (λ place. place + 1 < 2 ^ 32) }
    {
        let predicate = predicate as usize;
        if predicate < self.groups.len() {
            self.groups[predicate].place_from(first, from)
        } else {
            None
        }
    }

    /// Whether it is known that no clause from this place on may match a goal with this first argument. It looks at
    /// no more than a few.
    pub fn is_end(&self, predicate: u32, first: First, from: u32) -> bool
        ensures { result ≡ true → (p : PredValue) → Names self.now predicate p → AreLeftOut first (program self.now (predicate_of p)) from (length (program self.now (predicate_of p))) }
    {
        let predicate = predicate as usize;
        if predicate < self.groups.len() {
            self.groups[predicate].is_end(first, from)
        } else {
            true
        }
    }

    /// The cells of the clause's head: its terms one behind the other.
    pub fn head(&self, number: u32) -> &[Cell]
        requires { number < length self.now }
        ensures whole { IsForest result.now }
        ensures head { (c : ClauseValue) → slice_get self.now number ≡ Some c → forest result.now ≡ trees_of c.head }
    {
        piece(&self.cells, self.coded[number as usize].head)
    }

    /// How many variables the clause has.
    pub fn variables(&self, number: u32) -> u32
        requires { number < length self.now }
        ensures { (c : ClauseValue) → slice_get self.now number ≡ Some c → result ≡ c.vars }
    {
        self.coded[number as usize].variables
    }

    /// How many goals the clause's body has.
    pub fn body_len(&self, number: u32) -> u32
        requires { number < length self.now }
        ensures { (c : ClauseValue) → slice_get self.now number ≡ Some c → result ≡ length c.body }
    {
        self.coded[number as usize].count
    }

    /// The goal at a place of the clause's body.
    pub fn goal(&self, number: u32, place: u32) -> GoalAt<'_>
        requires { (c : ClauseValue) × (slice_get self.now number ≡ Some c) × (place < length c.body) }
        ensures { (c : ClauseValue) (g : GoalValue) → slice_get self.now number ≡ Some c → slice_get c.body place ≡ Some g → IsGoalAt self.now g result }
    {
        let goal = self.coded[number as usize].body[place as usize];
        let kind = match goal.code {
            Code::User(predicate) => Kind::User(predicate),
            Code::Equate => Kind::Equate,
            Code::Member => Kind::Member(self.domain(number, place)),
            Code::Test(test) => Kind::Test(test),
        };
        GoalAt {
            kind,
            arguments: piece(&self.cells, goal.span),
        }
    }

    /// The set of the goal at a place of the clause's body, where it is a membership.
    fn domain(&self, number: u32, place: u32) -> Option<&Domain>
        requires { (c : ClauseValue) × (slice_get self.now number ≡ Some c) × (place < length c.body) }
        ensures { (c : ClauseValue) (g : GoalValue) → slice_get self.now number ≡ Some c → slice_get c.body place ≡ Some g → IsSetOf g result }
    {
        domain_of(&self.clauses[number as usize].body.as_slice()[place as usize])
    }
}

/// The set of a membership.
fn domain_of(goal: &Goal) -> Option<&Domain>
    ensures { IsSetOf goal.now result }
{
    match goal {
        Goal::Member(_, Some(domain)) => Some(domain),
        _ => None,
    }
}

/// The place of a predicate; where it is new, how many there are.
fn place_of(predicates: &IndexSet<Key>, pred: Pred) -> usize
    ensures { result ≡ place_in same_pred (map pred_of predicates.now.keys) pred }
{
    match predicates.get_index_of(&(pred.name, pred.arity)) {
        Some(place) => place,
        None => predicates.len(),
    }
}

/// Appends empty groups up to this amount.
fn make_groups(groups: &mut Vec<Group>, amount: usize) -> Result<(), AllocError>
    ensures enough { OnOk result (amount ≤ length groups.new.items) }
    ensures added { AddsEmpty groups.old.items groups.new.items }
{
    for _ in groups.len()..amount {
        groups.push(Group::new(*groups.allocator()))?;
    }
    Ok(())
}
