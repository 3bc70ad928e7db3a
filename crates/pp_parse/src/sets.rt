//! Sets of integers at a place among the parts of a sentence.
ghost use Rattle.std.specs.Prelude.{◌≡◌, ◌≤◌, List, length, drop, option_map, IfOk, OnOk, IfSome};
ghost use Rattle.std.specs.FinSet as set;
ghost use Rattle.pp_algebra.specs.Members.{IsInteger};
ghost use Rattle.pp_language.specs.Phrases as phrases;
ghost use Rattle.pp_language.specs.Meanings.{integer_of, integers_between, bounds_set, bounds_sets, set_by};
ghost use Rattle.pp_term.specs.Meanings.{members_by};
ghost use Rattle.pp_parse.specs.Seen.{AreSeen};
ghost use Rattle.pp_language.specs.Fronts.{mark_in, upper_in, bounds_in, bounds_list_in, set_in};
ghost use Rattle.pp_parse.specs.Found.{FoundAt};
ghost use Rattle.pp_parse.specs.Sets.{AreEnds, united};

use crate::lookahead::{has_mark, integer_at};
use crate::parts::Part;
use pp_domain::Domain;
use pp_language::Kind;
use std::alloc::{AllocError, Global};
use std::collections::VecDeque;

/// The integer behind `..` at a place.
fn upper_at(parts: &[Part], at: usize) -> Option<i64>
    ghost qs: { List phrases.Part }
    requires seen { AreSeen qs parts.now }
    requires within { at ≤ length parts.now }
    ensures value { result ≡ option_map integer_of (upper_in (drop at qs)) }
    ensures integer { IfSome result IsInteger }
{
    if has_mark(parts, at, Kind::Range) {
        integer_at(parts, at + 1)
    } else {
        None
    }
}

/// The first and the last integer of bounds.
#[derive(Clone, Copy, Debug)]
struct Ends {
    low: i64,
    high: i64,
}

/// The bounds at a place.
fn bounds_at(parts: &[Part], at: usize) -> Option<(Ends, usize)>
    ghost qs: { List phrases.Part }
    requires seen { AreSeen qs parts.now }
    requires within { at ≤ length parts.now }
    ensures { FoundAt bounds_in AreEnds qs at result }
{
    let low = integer_at(parts, at)?;
    match upper_at(parts, at + 1) {
        Some(high) => Some((Ends { low, high }, at + 3)),
        None => Some((Ends { low, high: low }, at + 1)),
    }
}

/// Takes in the integers from the first to the last.
fn add_range(alloc: Global, domains: &mut VecDeque<Domain>, ends: Ends) -> Result<(), AllocError>
    requires low { IsInteger ends.low }
    requires high { IsInteger ends.high }
    ensures { OnOk result (united domains.new.items ≡ set.union (united domains.old.items) (integers_between ends.low ends.high)) }
{
    if let Some(domain) = Domain::range(alloc, ends.low, ends.high)? {
        domains.push_back(domain)?;
    }
    Ok(())
}

/// The integers of each of the bounds with commas between them, up to `]`.
fn ranges_at(
    alloc: Global,
    parts: &[Part],
    at: usize,
) -> Result<Option<(VecDeque<Domain>, usize)>, AllocError>
    ghost qs: { List phrases.Part }
    requires seen { AreSeen qs parts.now }
    requires within { at ≤ length parts.now }
    ensures { IfOk result (FoundAt bounds_list_in (λ bs ds. united ds.items ≡ bounds_sets bs) qs at) }
{
    let mut domains = VecDeque::new(alloc);
    let mut place = at;
    loop {
        let Some((ends, next)) = bounds_at(parts, place) else {
            return Ok(None);
        };
        add_range(alloc, &mut domains, ends)?;
        if has_mark(parts, next, Kind::CloseSquare) {
            return Ok(Some((domains, next + 1)));
        }
        if !has_mark(parts, next, Kind::Comma) {
            return Ok(None);
        }
        place = next + 1;
    }
}

/// The integers of all these domains. The two in front are united in turn, so each domain takes part in few unions.
fn unite(mut domains: VecDeque<Domain>) -> Result<Option<Domain>, AllocError>
    ensures { IfOk result (λ d. members_by d ≡ united domains.items) }
{
    loop {
        let Some(first) = domains.pop_front() else {
            return Ok(None);
        };
        let Some(second) = domains.pop_front() else {
            return Ok(Some(first));
        };
        domains.push_back(first.union(&second)?)?;
    }
}

fn bare_at(
    alloc: Global,
    parts: &[Part],
    at: usize,
) -> Result<Option<(Option<Domain>, usize)>, AllocError>
    ghost qs: { List phrases.Part }
    requires seen { AreSeen qs parts.now }
    requires within { at ≤ length parts.now }
    requires bare { mark_in (drop at qs) ≡ Some Kind.OpenSquare → ⊥ }
    ensures { IfOk result (FoundAt set_in (λ s d. members_by d ≡ set_by s) qs at) }
{
    let Some((ends, next)) = bounds_at(parts, at) else {
        return Ok(None);
    };
    Ok(Some((Domain::range(alloc, ends.low, ends.high)?, next)))
}

fn bracketed_at(
    alloc: Global,
    parts: &[Part],
    at: usize,
) -> Result<Option<(Option<Domain>, usize)>, AllocError>
    ghost qs: { List phrases.Part }
    requires seen { AreSeen qs parts.now }
    requires bracketed { mark_in (drop at qs) ≡ Some Kind.OpenSquare }
    ensures { IfOk result (FoundAt set_in (λ s d. members_by d ≡ set_by s) qs at) }
{
    let Some((domains, next)) = ranges_at(alloc, parts, at + 1)? else {
        return Ok(None);
    };
    Ok(Some((unite(domains)?, next)))
}

/// The set at a place.
pub(crate) fn set_at(
    alloc: Global,
    parts: &[Part],
    at: usize,
) -> Result<Option<(Option<Domain>, usize)>, AllocError>
    ghost qs: { List phrases.Part }
    requires seen { AreSeen qs parts.now }
    requires within { at ≤ length parts.now }
    ensures { IfOk result (FoundAt set_in (λ s d. members_by d ≡ set_by s) qs at) }
{
    if has_mark(parts, at, Kind::OpenSquare) {
        bracketed_at(alloc, parts, at)
    } else {
        bare_at(alloc, parts, at)
    }
}
