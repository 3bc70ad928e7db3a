//! An index by first argument.
ghost use Rattle.std.specs.Prelude.{◌≡◌, true, ◌+◌, ◌<◌, ◌≤◌, ◌^◌, ℕ, ◌++◌, [], ◌∷◌, List, length, IfOk, OnOk, OnErr, IfSome, MatchOption, slice_index};
ghost use Rattle.pp_clause.specs.declared.first.First.{First as FirstValue};
ghost use Rattle.pp_clause.specs.Firsts.{may_be as may_be_of};
ghost use Rattle.pp_clause.specs.Index.{lists_of, list_at, IsIndex, Ascends, IsNextIn, places_of, earlier as earlier_of};
ghost use Rattle.pp_clause.specs.Table.{AreOut, IsNextTop};

use crate::First;
use indexmap::IndexSet;
use std::alloc::{AllocError, Global};
use std::marker::Model;

/// So many tops are looked at one by one before the index is asked.
const FEW: usize = 8;

/// The tops of clauses' first arguments in order. A contract sees their list.
#[derive(Debug, Drop)]
pub(crate) struct Index {
    tops: Vec<First>,
    keys: IndexSet<First>,
    lists: Vec<Vec<u32>>,
}

impl Model for Index {
    ghost use Rattle.std.specs.Prelude.{◌<◌, ◌^◌, List, length};
    ghost use Rattle.std.specs.Coded.{codes};
    ghost use Rattle.pp_clause.specs.declared.first.First.{First};
    ghost use Rattle.pp_clause.specs.contracts.first.First as first;
    ghost use Rattle.pp_clause.specs.Index.{IsIndex, lists_of};

    ghost Value = { List First };

    ghost coded = { Prim.hlevel (codes, first.the_row.coded) };

    ghost view = { λ s. s.tops.items };

    ghost invariant = { λ s. (length s.tops.items < 2 ^ 32) × IsIndex s.keys.keys (lists_of s.lists.items) s.tops.items };
}

impl Index {
    /// No tops.
    pub(crate) fn new(alloc: Global) -> Index
        ensures { result ≡ [] }
    {
        Index {
            tops: Vec::new(alloc),
            keys: IndexSet::new(alloc),
            lists: Vec::new(alloc),
        }
    }

    /// How many there are.
    pub(crate) fn len(&self) -> u32
        ensures { result ≡ length self.now }
    {
        self.tops.len() as u32
    }

    /// Adds a top behind the others, and answers its place.
    pub(crate) fn push(&mut self, first: First) -> Result<u32, AllocError>
        ensures added { OnOk result (self.new ≡ self.old ++ first ∷ []) }
        ensures place { IfOk result (λ place. place ≡ length self.old) }
        ensures err { OnErr result (self.new ≡ self.old) }
    {
        let place = u32::try_from(self.tops.len()).map_err(|_| AllocError)?;
        if place == u32::MAX {
            return Err(AllocError);
        }
        self.tops.reserve(1)?;
        note(&mut self.keys, &mut self.lists, first, place)?;
        self.tops.push(first)?;
        Ok(place)
    }

    /// The places that have this top.
    fn places(&self, first: First) -> &[u32]
        ensures { result.now ≡ places_of first 0 self.now }
    {
        match self.keys.get_index_of(&first) {
            Some(at) => self.lists[at].as_slice(),
            None => &[],
        }
    }

    /// The next place, from `from` on, that the index gives for this top, or for a variable.
    fn indexed(&self, first: First, from: u32) -> Option<u32>
        ensures place { MatchOption result (AreOut first self.now from (length self.now)) (IsNextTop first self.now from) }
        ensures small { IfSome result (λ place. place + 1 < 2 ^ 32) }
    {
        // Names the field, so that the proof has the bound on their count on each path.
        let _ = &self.tops;
        if first == First::Free {
            return if (from as usize) < self.tops.len() {
                Some(from)
            } else {
                None
            };
        }
        earlier(
            next_in(self.places(first), from),
            next_in(self.places(First::Free), from),
        )
    }

    /// The next place, from `from` on, whose top may match.
    pub(crate) fn place_from(&self, first: First, from: u32) -> Option<u32>
        ensures place { MatchOption result (AreOut first self.now from (length self.now)) (IsNextTop first self.now from) }
        ensures small { IfSome result (λ place. place + 1 < 2 ^ 32) }
    {
        let end = self.tops.len().min(from as usize + FEW);
        for place in from as usize..end {
            if may_be(first, self.tops[place]) {
                return Some(place as u32);
            }
        }
        if end == self.tops.len() {
            return None;
        }
        self.indexed(first, end as u32)
    }

    /// Whether it is known that no top from this place on may match. It looks at no more than a few.
    pub(crate) fn is_end(&self, first: First, from: u32) -> bool
        ensures { result ≡ true → AreOut first self.now from (length self.now) }
    {
        let end = self.tops.len();
        if end > from as usize + FEW {
            return false;
        }
        for place in from as usize..end {
            if may_be(first, self.tops[place]) {
                return false;
            }
        }
        true
    }
}

/// Whether both may be of one term.
fn may_be(a: First, b: First) -> bool
    ensures { result ≡ may_be_of a b }
{
    a == b || a == First::Free || b == First::Free
}

/// Adds an empty list where there are only as many as keys.
fn make_room(lists: &mut Vec<Vec<u32>>, keys: usize) -> Result<(), AllocError>
    ensures room { OnOk result (keys ≤ length lists.old.items → keys < length lists.new.items) }
    ensures longer { length lists.old.items ≤ length lists.new.items }
    ensures same { (n : ℕ) → list_at lists.new.items n ≡ list_at lists.old.items n }
{
    if lists.len() <= keys {
        lists.push(Vec::new(*lists.allocator()))?;
    }
    Ok(())
}

/// Appends the next place to the list of its top.
fn note(
    keys: &mut IndexSet<First>,
    lists: &mut Vec<Vec<u32>>,
    first: First,
    place: u32,
) -> Result<(), AllocError>
    requires { length keys.old.keys ≤ length lists.old.items }
    ensures noted { OnOk result ((ts : List FirstValue) → IsIndex keys.old.keys (lists_of lists.old.items) ts → length ts ≡ place → IsIndex keys.new.keys (lists_of lists.new.items) (ts ++ first ∷ [])) }
    ensures err { OnErr result ((ts : List FirstValue) → IsIndex keys.old.keys (lists_of lists.old.items) ts → length ts ≡ place → IsIndex keys.new.keys (lists_of lists.new.items) ts) }
{
    make_room(lists, keys.len())?;
    let (at, _) = keys.insert_full(first)?;
    lists[at].push(place)?;
    Ok(())
}

/// The earlier one.
fn earlier(a: Option<u32>, b: Option<u32>) -> Option<u32>
    ensures { result ≡ earlier_of a b }
{
    match (a, b) {
        (Some(a), Some(b)) => Some(a.min(b)),
        (Some(a), None) => Some(a),
        (None, b) => b,
    }
}

/// The next one, from `from` on, in an ascending list.
fn next_in(list: &[u32], from: u32) -> Option<u32>
    requires { Ascends list.now }
    ensures { IsNextIn list.now from result }
{
    let at = below(list, from);
    if at < list.len() {
        Some(list[at])
    } else {
        None
    }
}

/// How many in an ascending list are below a number.
fn below(list: &[u32], from: u32) -> usize
    requires { Ascends list.now }
    ensures within { result ≤ length list.now }
    ensures below { (k : ℕ) → k < result → slice_index list.now k < from }
    ensures rest { (k : ℕ) → result ≤ k → k < length list.now → from ≤ slice_index list.now k }
{
    let mut low = 0;
    let mut high = list.len();
    while low < high {
        let middle = low + (high - low) / 2;
        if list[middle] < from {
            low = middle + 1;
        } else {
            high = middle;
        }
    }
    low
}
