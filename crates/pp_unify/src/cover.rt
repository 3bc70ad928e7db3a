//! Whether a row covers terms that stand in the heap, in one walk of the row's cells.
ghost use Rattle.std.specs.Prelude.{◌≡◌, ◌<◌, ℕ, List, length, nat_eq, vec_len, vec_capacity, IfOk, IsTrue, All, Some};
ghost use Rattle.pp_algebra.specs.Terms.{put, put_all, more, none, join};
ghost use Rattle.pp_algebra.specs.Rows.{Domains, domain_at};
ghost use Rattle.pp_algebra.specs.Covers.{IsWithin, MayGo, RowCovers};
ghost use Rattle.pp_algebra.specs.Canon.{canon};
ghost use Rattle.pp_algebra.specs.Least.{rest};
ghost use Rattle.pp_domain.specs.Sets.{set_of};
ghost use Rattle.pp_row.specs.Columns.{sets_of, trees_of};
ghost use Rattle.pp_row.specs.Cells.{IsLegalCell};
ghost use Rattle.pp_row.specs.Reading.{IsForest};
ghost use Rattle.pp_heap.specs.declared.state.Value.{Value as Now};
ghost use Rattle.pp_heap.specs.Values.{cell_at, term_at, value_term};
ghost use Rattle.pp_heap.specs.Stores.{store_of, solution};
ghost use Rattle.pp_heap.specs.Soundness.{IsGood, IsCompound};
ghost use Rattle.pp_heap.specs.Outcomes.{IsNow};
ghost use Rattle.pp_heap.specs.Spans.{IsSpan, span_terms, terms_of};
ghost use Rattle.pp_unify.specs.Tops.{IsAmong};
ghost use Rattle.pp_unify.specs.Covering.{now_term, domains_now, HasLikeness, AreBound, IsBound, IsMet, AreCovered};

use crate::head::is_alike;
use crate::pair::{Pair, push_pair_arguments, push_pair_rest};
use crate::terms::{domain_of as domain_now, leaf};
use crate::unify::{is_same, is_same_value};
use pp_domain::Domain;
use pp_heap::{Span, State, Value};
use pp_order::domain_of;
use pp_row::{Cell, Row, Term};
use std::alloc::{AllocError, Global};

/// What the variables of a row stand for, as far as they are met, and stacks: all are kept from call to call for
/// their memory alone.
#[derive(Debug, Drop)]
pub(crate) struct Cover {
    bound: Vec<Value>,
    work: Vec<Span>,
    pairs: Vec<Pair>,
}

impl Cover {
    pub(crate) fn new(alloc: Global) -> Cover {
        Cover {
            bound: Vec::new(alloc),
            work: Vec::new(alloc),
            pairs: Vec::new(alloc),
        }
    }
}

/// What is known of two values: they are not the same term, they are, or the arguments of the compounds at two places
/// are left.
#[derive(Clone, Copy, Debug, PartialEq, Eq)]
pub(crate) enum Likeness {
    Apart,
    Same,
    Open(u32, u32),
}

/// The likeness of the compounds at two places.
fn compare_names(state: &State, one: u32, other: u32) -> Likeness
    requires one { IsNow (store_of state.now) (Value.Compound one) }
    requires other { IsNow (store_of state.now) (Value.Compound other) }
    ensures { HasLikeness state.now (term_at state.now.heap.items one) (term_at state.now.heap.items other) result }
{
    if is_same(state.heap[one as usize], state.heap[other as usize]) {
        Likeness::Open(one, other)
    } else {
        Likeness::Apart
    }
}

/// The likeness of two values.
fn compare(state: &State, one: Value, other: Value) -> Likeness
    requires one { IsNow (store_of state.now) one }
    requires other { IsNow (store_of state.now) other }
    ensures { HasLikeness state.now (value_term state.now.heap.items one) (value_term state.now.heap.items other) result }
{
    if is_same_value(one, other) {
        return Likeness::Same;
    }
    match (one, other) {
        (Value::Compound(left), Value::Compound(right)) => compare_names(state, left, right),
        _ => Likeness::Apart,
    }
}

/// The likeness of the terms at two places.
fn look(state: &State, left: u32, right: u32) -> Likeness
    requires good { IsGood state.now }
    requires left { left < length state.now.heap.items }
    requires right { right < length state.now.heap.items }
    ensures { HasLikeness state.now (term_at state.now.heap.items left) (term_at state.now.heap.items right) result }
{
    let one = state.look(left);
    let other = state.look(right);
    compare(state, one, other)
}

/// Whether the compounds at two places, of one name and number of arguments, are the same term.
fn are_same(state: &State, work: &mut Vec<Pair>, left: u32, right: u32) -> Result<bool, AllocError>
    requires good { IsGood state.now }
    requires left { left < length state.now.heap.items }
    requires right { right < length state.now.heap.items }
    requires same { cell_at state.now.heap.items left ≡ cell_at state.now.heap.items right }
    requires compound { IsCompound (cell_at state.now.heap.items left) }
    ensures { IfOk result (λ is. IsTrue is → put (solution state.now) (term_at state.now.heap.items left) ≡ put (solution state.now) (term_at state.now.heap.items right)) }
{
    work.clear();
    push_pair_arguments(state, work, left, right)?;
    while let Some(pair) = work.pop() {
        push_pair_rest(state, work, pair)?;
        match look(state, pair.left, pair.right) {
            Likeness::Apart => return Ok(false),
            Likeness::Same => {}
            Likeness::Open(one, other) => push_pair_arguments(state, work, one, other)?,
        }
    }
    Ok(true)
}

/// Whether two values are the same term, with all bindings in place.
fn is_same_term(
    state: &State,
    work: &mut Vec<Pair>,
    one: Value,
    other: Value,
) -> Result<bool, AllocError>
    requires good { IsGood state.now }
    requires one { IsNow (store_of state.now) one }
    requires other { IsNow (store_of state.now) other }
    ensures { IfOk result (λ is. IsTrue is → now_term state.now one ≡ now_term state.now other) }
{
    match compare(state, one, other) {
        Likeness::Apart => Ok(false),
        Likeness::Same => Ok(true),
        Likeness::Open(left, right) => are_same(state, work, left, right),
    }
}

/// Whether a free variable's domain lies inside this one.
fn is_within(state: &State, domain: &Domain, free: u32) -> bool
    requires good { IsGood state.now }
    ensures { IsTrue result → IsWithin (set_of domain.now) (domains_now state.now free) }
{
    match domain_now(state, free) {
        Some(other) => other.inside(domain),
        None => false,
    }
}

/// Whether a variable of this domain may go to the value.
fn reaches(state: &State, domain: &Domain, value: Value) -> bool
    requires good { IsGood state.now }
    requires now { IsNow (store_of state.now) value }
    ensures { IsTrue result → MayGo (domains_now state.now) (Some (set_of domain.now)) (now_term state.now value) }
{
    match value {
        Value::Int(value) => domain.has(value),
        Value::Variable(free) => is_within(state, domain, free),
        _ => false,
    }
}

/// Whether a variable of the row may go to the value.
fn may_go(state: &State, domains: &[Option<Domain>], variable: u32, value: Value) -> bool
    requires good { IsGood state.now }
    requires now { IsNow (store_of state.now) value }
    ensures { IsTrue result → MayGo (domains_now state.now) (domain_at (sets_of domains.now) variable) (now_term state.now value) }
{
    match domain_of(domains, variable) {
        Some(domain) => reaches(state, domain, value),
        None => true,
    }
}

/// Whether the variable may stand for the value. One that is bound may only stand for the term that it is bound to,
/// and the next one is bound.
fn bind(
    state: &State,
    cover: &mut Cover,
    domains: &[Option<Domain>],
    variable: u32,
    value: Value,
) -> Result<bool, AllocError>
    requires good { IsGood state.now }
    requires now { IsNow (store_of state.now) value }
    requires bound { AreBound state.now (domain_at (sets_of domains.now)) cover.old.bound.items }
    ensures bound { IfOk result (λ is. IsTrue is → IsBound state.now (domain_at (sets_of domains.now)) cover.old.bound.items cover.new.bound.items variable value) }
    ensures work { cover.new.work.items ≡ cover.old.work.items }
{
    let place = variable as usize;
    if place < cover.bound.len() {
        return is_same_term(state, &mut cover.pairs, cover.bound[place], value);
    }
    if place != cover.bound.len() || !may_go(state, domains, variable, value) {
        return Ok(false);
    }
    cover.bound.push(value)?;
    Ok(true)
}

/// Whether a cell of the row and a value agree, but for the arguments of a compound, which the work has more.
fn meet(
    state: &State,
    cover: &mut Cover,
    domains: &[Option<Domain>],
    cell: Cell,
    value: Value,
) -> Result<bool, AllocError>
    requires good { IsGood state.now }
    requires now { IsNow (store_of state.now) value }
    requires legal { IsLegalCell cell }
    requires bound { AreBound state.now (domain_at (sets_of domains.now)) cover.old.bound.items }
    requires all { All (IsSpan state.now.heap.items) cover.old.work.items }
    ensures all { IfOk result (λ _. All (IsSpan state.now.heap.items) cover.new.work.items) }
    ensures met { IfOk result (λ is. IsTrue is → IsMet state.now (domain_at (sets_of domains.now)) cover.old.bound.items cover.new.bound.items cell (more (value_term state.now.heap.items value) (terms_of state.now.heap.items cover.old.work.items)) (terms_of state.now.heap.items cover.new.work.items)) }
{
    match cell {
        Cell::Int(known) => Ok(is_same_value(value, Value::Int(known))),
        Cell::Atom(name) => Ok(is_same_value(value, Value::Atom(name))),
        Cell::Compound(_, _) => meet_compound(state, &mut cover.work, cell, value),
        Cell::Var(variable) => bind(state, cover, domains, variable, value),
    }
}

/// The same of a compound.
fn meet_compound(
    state: &State,
    work: &mut Vec<Span>,
    cell: Cell,
    value: Value,
) -> Result<bool, AllocError>
    requires good { IsGood state.now }
    requires now { IsNow (store_of state.now) value }
    requires compound { IsCompound cell }
    requires all { All (IsSpan state.now.heap.items) work.old.items }
    ensures all { IfOk result (λ _. All (IsSpan state.now.heap.items) work.new.items) }
    ensures met { IfOk result (λ is. IsTrue is → (ds : Domains ℕ) (cs : List Now) → AreBound state.now ds cs → IsMet state.now ds cs cs cell (more (value_term state.now.heap.items value) (terms_of state.now.heap.items work.old.items)) (terms_of state.now.heap.items work.new.items)) }
{
    let Value::Compound(place) = value else {
        return Ok(false);
    };
    if !is_same(state.heap[place as usize], cell) {
        return Ok(false);
    }
    state.push_arguments(work, place)?;
    Ok(true)
}

/// The same of the first term of a span, which was taken from the work.
fn meet_span(
    state: &State,
    cover: &mut Cover,
    domains: &[Option<Domain>],
    cells: &[Cell],
    at: usize,
    span: Span,
) -> Result<bool, AllocError>
    requires good { IsGood state.now }
    requires span { IsSpan state.now.heap.items span }
    requires bound { AreBound state.now (domain_at (sets_of domains.now)) cover.old.bound.items }
    requires all { All (IsSpan state.now.heap.items) cover.old.work.items }
    requires room { vec_len cover.old.work < vec_capacity cover.old.work }
    requires cells { IsForest cells.now }
    requires within { at < length cells.now }
    ensures all { IfOk result (λ _. All (IsSpan state.now.heap.items) cover.new.work.items) }
    ensures met { IfOk result (λ is. IsTrue is → IsMet state.now (domain_at (sets_of domains.now)) cover.old.bound.items cover.new.bound.items (cell_at cells.now at) (more (term_at state.now.heap.items span.at) (join (rest (span_terms state.now.heap.items span)) (terms_of state.now.heap.items cover.old.work.items))) (terms_of state.now.heap.items cover.new.work.items)) }
{
    if is_alike(state, span.at, cells, at) {
        state.push_inside(&mut cover.work, span)?;
        return Ok(true);
    }
    state.put_rest(&mut cover.work, span);
    let value = state.look(span.at);
    meet(state, cover, domains, cells[at], value)
}

/// Whether a term of the row covers a value, where the variables that are met stand for what they are bound to.
fn covers_value(
    state: &State,
    cover: &mut Cover,
    domains: &[Option<Domain>],
    term: &Term,
    value: Value,
) -> Result<bool, AllocError>
    requires good { IsGood state.now }
    requires now { IsNow (store_of state.now) value }
    requires bound { AreBound state.now (domain_at (sets_of domains.now)) cover.old.bound.items }
    ensures { IfOk result (λ is. IsTrue is → AreCovered state.now (domain_at (sets_of domains.now)) cover.old.bound.items cover.new.bound.items (more term.now none) (more (value_term state.now.heap.items value) none)) }
{
    let cells = term.cells();
    cover.work.clear();
    if !meet(state, cover, domains, cells[0], value)? {
        return Ok(false);
    }
    for at in 1..cells.len() {
        let Some(span) = cover.work.pop() else {
            return Ok(false);
        };
        if !meet_span(state, cover, domains, cells, at, span)? {
            return Ok(false);
        }
    }
    Ok(cover.work.is_empty())
}

/// Whether a term of the row covers a column. Of a column that is a compound it isn't known.
fn covers_column(
    state: &State,
    cover: &mut Cover,
    domains: &[Option<Domain>],
    term: &Term,
    column: &Term,
) -> Result<bool, AllocError>
    requires good { IsGood state.now }
    requires among { IsAmong state.now.slots.items column.now }
    requires bound { AreBound state.now (domain_at (sets_of domains.now)) cover.old.bound.items }
    ensures { IfOk result (λ is. IsTrue is → AreCovered state.now (domain_at (sets_of domains.now)) cover.old.bound.items cover.new.bound.items (more term.now none) (more column.now none)) }
{
    match leaf(state, column.cells(), 0, 0) {
        Some(value) => covers_value(state, cover, domains, term, value),
        None => Ok(false),
    }
}

/// Whether the row covers that of these columns, with all bindings in place.
pub(crate) fn is_covered(
    state: &State,
    cover: &mut Cover,
    columns: &[Term],
    by: &Row,
) -> Result<bool, AllocError>
    requires good { IsGood state.now }
    requires among { All (IsAmong state.now.slots.items) columns.now }
    ensures { IfOk result (λ is. IsTrue is → RowCovers by.now (canon nat_eq (record { columns = put_all (solution state.now) (trees_of columns.now); domains = domains_now state.now }))) }
{
    let terms = by.columns();
    let domains = by.domains();
    if terms.len() != columns.len() {
        return Ok(false);
    }
    cover.bound.clear();
    for (k, term) in terms.iter().enumerate() {
        if !covers_column(state, cover, domains, term, &columns[k])? {
            return Ok(false);
        }
    }
    Ok(true)
}
