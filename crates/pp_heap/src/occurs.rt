//! The occurs check.
ghost use Rattle.std.specs.Prelude.{◌↔◌, ◌<◌, length, IfOk, IsTrue, All};
ghost use Rattle.pp_algebra.specs.Covers.{IsIn};
ghost use Rattle.pp_algebra.specs.Terms.{put, variables};
ghost use Rattle.pp_algebra.specs.Terms as term;
ghost use Rattle.pp_heap.specs.Values.{cell_at, term_at};
ghost use Rattle.pp_heap.specs.Stores.{solution};
ghost use Rattle.pp_heap.specs.Soundness.{IsGood, IsCompound};
ghost use Rattle.pp_heap.specs.Spans.{IsSpan, span_terms};
ghost use Rattle.pp_heap.specs.Sights.{HasSeen, HasSeenAll};

use crate::spans::Span;
use crate::state::{State, Value};
use pp_row::Cell;
use std::alloc::AllocError;

impl State {
    /// Whether a cell's variable is this one at the moment. Where it is another one that is bound to a compound, the
    /// work has that one's arguments more.
    fn meets(&self, variable: u32, number: u32, work: &mut Vec<Span>) -> Result<bool, AllocError>
        requires good { IsGood self.now }
        requires within { number < length self.now.slots.items }
        requires all { All (IsSpan self.now.heap.items) work.old.items }
        ensures all { IfOk result (λ _. All (IsSpan self.now.heap.items) work.new.items) }
        ensures seen { IfOk result (HasSeen self.now variable (term.variable number) work.old.items work.new.items) }
    {
        match self.value_of(number) {
            Value::Variable(other) => Ok(other == variable),
            Value::Compound(place) => {
                self.push_arguments(work, place)?;
                Ok(false)
            }
            _ => Ok(false),
        }
    }

    /// Whether the variable is a cell of these terms at the moment. What their variables are bound to is put to the
    /// work.
    fn is_among(&self, variable: u32, span: Span, work: &mut Vec<Span>) -> Result<bool, AllocError>
        requires good { IsGood self.now }
        requires span { IsSpan self.now.heap.items span }
        requires all { All (IsSpan self.now.heap.items) work.old.items }
        ensures all { IfOk result (λ _. All (IsSpan self.now.heap.items) work.new.items) }
        ensures seen { IfOk result (HasSeenAll self.now variable (span_terms self.now.heap.items span) work.old.items work.new.items) }
    {
        let mut left = span;
        while left.count > 0 {
            let cell = self.heap[left.at as usize];
            if let Cell::Var(number) = cell {
                if self.meets(variable, number, work)? {
                    return Ok(true);
                }
            }
            left = Span {
                at: left.at + 1,
                count: left.count - 1 + cell.arity(),
            };
        }
        Ok(false)
    }

    /// Whether the variable is in the compound at this place, with all bindings in place. The work is a stack that is
    /// kept from call to call for its memory alone.
    pub(crate) fn occurs(
        &self,
        variable: u32,
        at: u32,
        work: &mut Vec<Span>,
    ) -> Result<bool, AllocError>
        requires good { IsGood self.now }
        requires within { at < length self.now.heap.items }
        requires compound { IsCompound (cell_at self.now.heap.items at) }
        ensures { IfOk result (λ b. IsTrue b ↔ IsIn variable (variables (put (solution self.now) (term_at self.now.heap.items at)))) }
    {
        work.clear();
        let mut span = Span {
            at: at + 1,
            count: self.arity_at(at),
        };
        loop {
            if self.is_among(variable, span, work)? {
                return Ok(true);
            }
            match work.pop() {
                Some(next) => span = next,
                None => return Ok(false),
            }
        }
    }
}
