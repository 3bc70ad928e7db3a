//! Terms of the heap that are still to be walked.
ghost use Rattle.std.specs.Prelude.{◌≡◌, ◌<◌, length, vec_len, vec_capacity, IfOk, IsTrue, All};
ghost use Rattle.pp_algebra.specs.Least.{rest, arguments};
ghost use Rattle.pp_row.specs.Cells.{arity_of};
ghost use Rattle.pp_algebra.specs.Terms.{join};
ghost use Rattle.pp_heap.specs.Values.{cell_at, term_at};
ghost use Rattle.pp_heap.specs.Soundness.{IsGood, IsCompound};
ghost use Rattle.pp_heap.specs.Spans.{IsEnd, IsSpan, span_terms, terms_of};

use crate::state::State;
use pp_row::{Cell, end_of};
use std::alloc::AllocError;

/// Terms that stand one after another in the heap.
#[derive(Clone, Copy, Debug, PartialEq, Eq)]
pub struct Span {
    pub at: u32,
    pub count: u32,
}

impl State {
    /// Where the term ends that begins at this place.
    pub fn end_at(&self, at: u32) -> u32
        requires good { IsGood self.now }
        requires within { at < length self.now.heap.items }
        ensures { IsEnd self.now.heap.items at result }
    {
        match self.heap[at as usize] {
            Cell::Compound(_, _) => self.compound_end(at),
            _ => at + 1,
        }
    }

    /// The same, by a walk over the cells of its arguments.
    fn compound_end(&self, at: u32) -> u32
        requires good { IsGood self.now }
        requires within { at < length self.now.heap.items }
        ensures { IsEnd self.now.heap.items at result }
    {
        end_of(self.heap.as_slice(), at as usize) as u32
    }

    /// How many arguments the cell at this place has.
    pub fn arity_at(&self, place: u32) -> u32
        requires within { place < length self.now.heap.items }
        ensures { result ≡ arity_of (cell_at self.now.heap.items place) }
    {
        self.heap[place as usize].arity()
    }

    /// Whether a compound begins at this place.
    pub fn is_compound(&self, place: u32) -> bool
        requires within { place < length self.now.heap.items }
        ensures { IsTrue result → IsCompound (cell_at self.now.heap.items place) }
    {
        match self.heap[place as usize] {
            Cell::Compound(_, _) => true,
            _ => false,
        }
    }

    /// Puts the arguments of a span's first term to the work with the terms after it: they stand one after another.
    pub fn push_inside(&self, work: &mut Vec<Span>, span: Span) -> Result<(), AllocError>
        requires good { IsGood self.now }
        requires span { IsSpan self.now.heap.items span }
        requires compound { IsCompound (cell_at self.now.heap.items span.at) }
        requires all { All (IsSpan self.now.heap.items) work.old.items }
        ensures all { IfOk result (λ _. All (IsSpan self.now.heap.items) work.new.items) }
        ensures terms { IfOk result (λ _. terms_of self.now.heap.items work.new.items ≡ join (arguments (term_at self.now.heap.items span.at)) (join (rest (span_terms self.now.heap.items span)) (terms_of self.now.heap.items work.old.items))) }
    {
        let arity = self.arity_at(span.at);
        work.push(Span {
            at: span.at + 1,
            count: span.count - 1 + arity,
        })?;
        Ok(())
    }

    /// Puts the terms after the first one to the work.
    pub fn push_rest(&self, work: &mut Vec<Span>, span: Span) -> Result<(), AllocError>
        requires good { IsGood self.now }
        requires span { IsSpan self.now.heap.items span }
        requires all { All (IsSpan self.now.heap.items) work.old.items }
        ensures all { IfOk result (λ _. All (IsSpan self.now.heap.items) work.new.items) }
        ensures terms { IfOk result (λ _. terms_of self.now.heap.items work.new.items ≡ join (rest (span_terms self.now.heap.items span)) (terms_of self.now.heap.items work.old.items)) }
    {
        work.reserve(1)?;
        self.put_rest(work, span);
        Ok(())
    }

    /// The same where the work has room, as it has after a pop.
    pub fn put_rest(&self, work: &mut Vec<Span>, span: Span)
        requires good { IsGood self.now }
        requires span { IsSpan self.now.heap.items span }
        requires all { All (IsSpan self.now.heap.items) work.old.items }
        requires room { vec_len work.old < vec_capacity work.old }
        ensures all { All (IsSpan self.now.heap.items) work.new.items }
        ensures terms { terms_of self.now.heap.items work.new.items ≡ join (rest (span_terms self.now.heap.items span)) (terms_of self.now.heap.items work.old.items) }
    {
        if span.count > 1 {
            let at = self.end_at(span.at);
            work.push_reserved(Span {
                at,
                count: span.count - 1,
            });
        }
    }

    /// Puts the arguments of the compound at this place to the work.
    pub fn push_arguments(&self, work: &mut Vec<Span>, place: u32) -> Result<(), AllocError>
        requires good { IsGood self.now }
        requires within { place < length self.now.heap.items }
        requires compound { IsCompound (cell_at self.now.heap.items place) }
        requires all { All (IsSpan self.now.heap.items) work.old.items }
        ensures all { IfOk result (λ _. All (IsSpan self.now.heap.items) work.new.items) }
        ensures terms { IfOk result (λ _. terms_of self.now.heap.items work.new.items ≡ join (arguments (term_at self.now.heap.items place)) (terms_of self.now.heap.items work.old.items)) }
    {
        let count = self.arity_at(place);
        work.push(Span {
            at: place + 1,
            count,
        })?;
        Ok(())
    }
}
