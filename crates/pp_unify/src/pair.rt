//! Pairs of terms of the heap that are still to be made equal.
ghost use Rattle.std.specs.Prelude.{◌≡◌, ◌<◌, length, IfOk, IsTrue, All};
ghost use Rattle.pp_algebra.specs.Least.{rest, arguments};
ghost use Rattle.pp_heap.specs.Values.{cell_at, term_at};
ghost use Rattle.pp_heap.specs.Soundness.{IsGood, IsCompound};
ghost use Rattle.pp_heap.specs.Spans.{span_terms};
ghost use Rattle.pp_unify.specs.Pairs.{IsPair, Pushes, Opens, left_span, right_span};

use crate::unify::is_same;
use pp_heap::{Span, State};
use std::alloc::{AllocError, Global};

/// Terms that stand one after another in the heap, and as many others that are to be equal to them.
#[derive(Clone, Copy, Debug, PartialEq, Eq)]
pub(crate) struct Pair {
    pub(crate) left: u32,
    pub(crate) right: u32,
    pub(crate) count: u32,
}

/// Stacks that are kept from call to call for their memory alone: the pairs that are still to be made equal, and the
/// work of the occurs check.
#[derive(Debug, Drop)]
pub(crate) struct Scratch {
    pub(crate) pairs: Vec<Pair>,
    pub(crate) spans: Vec<Span>,
}

impl Scratch {
    pub(crate) fn new(alloc: Global) -> Scratch {
        Scratch {
            pairs: Vec::new(alloc),
            spans: Vec::new(alloc),
        }
    }
}

/// Whether two compounds of one name and number of arguments begin at these places.
pub(crate) fn are_alike(state: &State, left: u32, right: u32) -> bool
    requires left { left < length state.now.heap.items }
    requires right { right < length state.now.heap.items }
    ensures { IsTrue result → (cell_at state.now.heap.items left ≡ cell_at state.now.heap.items right) × IsCompound (cell_at state.now.heap.items left) }
{
    state.is_compound(left) && is_same(state.heap[left as usize], state.heap[right as usize])
}

/// The same of a pair whose first terms are compounds of one name and number of arguments.
pub(crate) fn push_pair_inside(
    state: &State,
    work: &mut Vec<Pair>,
    pair: Pair,
) -> Result<(), AllocError>
    requires good { IsGood state.now }
    requires pair { IsPair state.now.heap.items pair }
    requires same { cell_at state.now.heap.items pair.left ≡ cell_at state.now.heap.items pair.right }
    requires compound { IsCompound (cell_at state.now.heap.items pair.left) }
    requires all { All (IsPair state.now.heap.items) work.old.items }
    ensures { IfOk result (λ _. Opens state.now.heap.items work.old.items work.new.items pair) }
{
    let arity = state.arity_at(pair.left);
    work.push(Pair {
        left: pair.left + 1,
        right: pair.right + 1,
        count: pair.count - 1 + arity,
    })?;
    Ok(())
}

/// Puts the terms after the first ones to the work.
pub(crate) fn push_pair_rest(
    state: &State,
    work: &mut Vec<Pair>,
    pair: Pair,
) -> Result<(), AllocError>
    requires good { IsGood state.now }
    requires pair { IsPair state.now.heap.items pair }
    requires all { All (IsPair state.now.heap.items) work.old.items }
    ensures { IfOk result (λ _. Pushes state.now.heap.items work.old.items work.new.items (rest (span_terms state.now.heap.items (left_span pair))) (rest (span_terms state.now.heap.items (right_span pair)))) }
{
    if pair.count > 1 {
        let left = state.end_at(pair.left);
        let right = state.end_at(pair.right);
        work.push(Pair {
            left,
            right,
            count: pair.count - 1,
        })?;
    }
    Ok(())
}

/// Puts the arguments of the compounds at two places to the work.
pub(crate) fn push_pair_arguments(
    state: &State,
    work: &mut Vec<Pair>,
    left: u32,
    right: u32,
) -> Result<(), AllocError>
    requires good { IsGood state.now }
    requires left { left < length state.now.heap.items }
    requires right { right < length state.now.heap.items }
    requires same { cell_at state.now.heap.items left ≡ cell_at state.now.heap.items right }
    requires compound { IsCompound (cell_at state.now.heap.items left) }
    requires all { All (IsPair state.now.heap.items) work.old.items }
    ensures { IfOk result (λ _. Pushes state.now.heap.items work.old.items work.new.items (arguments (term_at state.now.heap.items left)) (arguments (term_at state.now.heap.items right))) }
{
    let count = state.arity_at(left);
    work.push(Pair {
        left: left + 1,
        right: right + 1,
        count,
    })?;
    Ok(())
}
