//! What stands at a place among the parts of a sentence.
ghost use Rattle.std.specs.Prelude.{◌≡◌, List, drop, option_map, IfSome, MatchOption, false, IsTrue, ◌↔◌, Some, slice_get};
ghost use Rattle.pp_algebra.specs.Members.{IsInteger};
ghost use Rattle.pp_language.specs.Phrases as phrases;
ghost use Rattle.pp_language.specs.Meanings.{integer_of};
ghost use Rattle.pp_parse.specs.Seen.{AreSeen, ShowsIn};
ghost use Rattle.pp_language.specs.Fronts.{mark_in, integer_in, has_term, has_callable};

use crate::parts::{Part, Phrase};
use pp_language::Kind;
use pp_term::Cell;

pub(crate) fn mark_at(parts: &[Part], at: usize) -> Option<Kind>
    ghost qs: { List phrases.Part }
    requires { AreSeen qs parts.now }
    ensures { result ≡ mark_in (drop at qs) }
{
    match parts.get(at)? {
        Part::Mark(kind) => Some(*kind),
        Part::Term(_) => None,
    }
}

pub(crate) fn term_at(parts: &[Part], at: usize) -> Option<&Phrase>
    ghost qs: { List phrases.Part }
    requires { AreSeen qs parts.now }
    ensures shows { MatchOption result (has_term (drop at qs) ≡ false) (λ t. ShowsIn (drop at qs) t.now.cells.items) }
    ensures part { IfSome result (λ t. slice_get parts.now at ≡ Some (Part.Term t.now)) }
{
    match parts.get(at)? {
        Part::Term(phrase) => Some(phrase),
        Part::Mark(_) => None,
    }
}

pub(crate) fn has_term(parts: &[Part], at: usize) -> bool
    ghost qs: { List phrases.Part }
    requires { AreSeen qs parts.now }
    ensures { result ≡ has_term (drop at qs) }
{
    term_at(parts, at).is_some()
}

pub(crate) fn has_callable(parts: &[Part], at: usize) -> bool
    ghost qs: { List phrases.Part }
    requires { AreSeen qs parts.now }
    ensures { result ≡ has_callable (drop at qs) }
{
    let Some(term) = term_at(parts, at) else {
        return false;
    };
    match term.cells.first() {
        Some(Cell::Atom(_) | Cell::Compound(_, _)) => true,
        Some(Cell::Int(_) | Cell::Var(_)) => false,
        None => false,
    }
}

pub(crate) fn integer_at(parts: &[Part], at: usize) -> Option<i64>
    ghost qs: { List phrases.Part }
    requires { AreSeen qs parts.now }
    ensures value { result ≡ option_map integer_of (integer_in (drop at qs)) }
    ensures integer { IfSome result IsInteger }
{
    match term_at(parts, at)?.cells.first()? {
        Cell::Int(value) => Some(*value),
        _ => None,
    }
}

pub(crate) fn has_mark(parts: &[Part], at: usize, kind: Kind) -> bool
    ghost qs: { List phrases.Part }
    requires { AreSeen qs parts.now }
    ensures { IsTrue result ↔ (mark_in (drop at qs) ≡ Some kind) }
{
    match mark_at(parts, at) {
        Some(mark) => mark == kind,
        None => false,
    }
}
