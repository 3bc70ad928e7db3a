//! Items of a statement at a place among the parts of a sentence.
ghost use Rattle.std.specs.Prelude.{◌≡◌, ◌+◌, ◌≤◌, All, List, length, drop, IfOk, option_map, option_copied, slice_get};
ghost use Rattle.std.specs.List.{list_all};
ghost use Rattle.pp_language.specs.Texts.{part};
ghost use Rattle.pp_language.specs.Tokens.{IsTokenOf};
ghost use Rattle.pp_language.specs.Phrases as phrases;
ghost use Rattle.pp_term.specs.Meanings.{mode_of};
ghost use Rattle.pp_parse.specs.Words.{words_of};
ghost use Rattle.pp_parse.specs.Seen.{AreSeen, AreBegun, is_atom};
ghost use Rattle.pp_language.specs.Fronts.{set_in, term_in, callable_in, plain_text, atom_in, mode_named, mode_in, infer_in, item_in};
ghost use Rattle.pp_parse.specs.Items.{operator_of, operator_in};
ghost use Rattle.pp_parse.specs.Found.{FoundAt};
ghost use Rattle.pp_parse.specs.Layouts.{IsMember, IsEntry, is_body_entry, is_query_entry};

use crate::lookahead::{has_callable, has_term, mark_at, term_at};
use crate::parts::{Part, Phrase};
use crate::sets::set_at;
use crate::texts::text_of;
use pp_domain::Domain;
use pp_language::{Kind, Token, is_same};
use pp_term::{Cell, Mode, Relation};
use std::alloc::{AllocError, Global};

/// An item of a statement, by the places of its terms among the parts of the sentence.
#[derive(Debug, Drop)]
pub enum Entry {
    Call(usize),
    Equate(usize, usize),
    Member(usize, Option<Domain>),
    Compare(Relation, usize, usize),
    Infer(usize, Mode),
}

/// What stands behind the first term of an item.
#[derive(Clone, Copy, Debug)]
enum Operator {
    Equals,
    InDomain,
    Compares(Relation),
    Infers,
    Other,
}

fn operator_of(kind: Kind) -> Operator
    ensures { result ≡ operator_of kind }
{
    match kind {
        Kind::Equals => Operator::Equals,
        Kind::InDomain => Operator::InDomain,
        Kind::Infers => Operator::Infers,
        Kind::Less => Operator::Compares(Relation::Less),
        Kind::AtMost => Operator::Compares(Relation::AtMost),
        Kind::Equal => Operator::Compares(Relation::Equal),
        Kind::Differ => Operator::Compares(Relation::Differ),
        _ => Operator::Other,
    }
}

fn operator_at(parts: &[Part], at: usize) -> Operator
    ghost qs: { List phrases.Part }
    requires { AreSeen qs parts.now }
    ensures { result ≡ operator_in (drop at qs) }
{
    match mark_at(parts, at) {
        Some(kind) => operator_of(kind),
        None => Operator::Other,
    }
}

/// The entry, where a term stands at the place.
fn with_term(parts: &[Part], at: usize, entry: Entry) -> Option<(Entry, usize)>
    ghost qs: { List phrases.Part }
    requires seen { AreSeen qs parts.now }
    requires within { at ≤ length parts.now }
    ensures { FoundAt term_in (λ _ e. e ≡ entry) qs at result }
{
    if has_term(parts, at) {
        Some((entry, at + 1))
    } else {
        None
    }
}

/// The entry, where an atom stands at the place, with arguments or without.
fn with_callable(parts: &[Part], at: usize, entry: Entry) -> Option<(Entry, usize)>
    ghost qs: { List phrases.Part }
    requires seen { AreSeen qs parts.now }
    requires within { at ≤ length parts.now }
    ensures { FoundAt callable_in (λ _ e. e ≡ entry) qs at result }
{
    if has_callable(parts, at) {
        Some((entry, at + 1))
    } else {
        None
    }
}

/// The membership of the term at `term` in the set at `at`.
fn member_at(
    alloc: Global,
    parts: &[Part],
    term: usize,
    at: usize,
) -> Result<Option<(Entry, usize)>, AllocError>
    ghost qs: { List phrases.Part }
    requires seen { AreSeen qs parts.now }
    requires within { at ≤ length parts.now }
    ensures { IfOk result (FoundAt set_in (IsMember term) qs at) }
{
    let Some((set, next)) = set_at(alloc, parts, at)? else {
        return Ok(None);
    };
    Ok(Some((Entry::Member(term, set), next)))
}

/// Whether the term is an atom without arguments.
fn is_atom(term: &Phrase) -> bool
    ensures { result ≡ is_atom (slice_get term.now.cells.items 0) }
{
    matches!(term.cells.first(), Some(Cell::Atom(_)))
}

/// The text of a token that is an atom not in quotes.
fn plain_text(text: &[u8], token: Token) -> Option<&[u8]>
    requires { IsTokenOf text.now token }
    ensures { option_copied result ≡ plain_text token.kind (part text.now token.first token.last) }
{
    if token.kind == Kind::Atom {
        Some(text_of(text, token))
    } else {
        None
    }
}

/// The text of the atom that stands at a place without arguments and not in quotes.
fn atom_at<'a>(text: &'a [u8], tokens: &[Token], parts: &[Part], at: usize) -> Option<&'a [u8]>
    ghost qs: { List phrases.Part }
    requires seen { AreSeen qs parts.now }
    requires begun { AreBegun (words_of text.now tokens.now) qs parts.now }
    requires tokens { All (IsTokenOf text.now) tokens.now }
    ensures { option_copied result ≡ atom_in (drop at qs) }
{
    let term = term_at(parts, at)?;
    if !is_atom(term) {
        return None;
    }
    let first = term.first;
    plain_text(text, tokens[first])
}

fn mode_named(name: &[u8]) -> Option<Mode>
    ensures { option_map mode_of result ≡ mode_named name.now }
{
    if is_same(name, b"most") {
        Some(Mode::Most)
    } else if is_same(name, b"unique") {
        Some(Mode::Unique)
    } else if is_same(name, b"consistent") {
        Some(Mode::Consistent)
    } else {
        None
    }
}

fn mode_at(text: &[u8], tokens: &[Token], parts: &[Part], at: usize) -> Option<Mode>
    ghost qs: { List phrases.Part }
    requires seen { AreSeen qs parts.now }
    requires begun { AreBegun (words_of text.now tokens.now) qs parts.now }
    requires tokens { All (IsTokenOf text.now) tokens.now }
    ensures { option_map mode_of result ≡ mode_in (drop at qs) }
{
    mode_named(atom_at(text, tokens, parts, at)?)
}

/// The annotated goal at a place, behind whose atom `infers` stands.
fn infer_at(text: &[u8], tokens: &[Token], parts: &[Part], at: usize) -> Option<(Entry, usize)>
    ghost qs: { List phrases.Part }
    requires seen { AreSeen qs parts.now }
    requires begun { AreBegun (words_of text.now tokens.now) qs parts.now }
    requires tokens { All (IsTokenOf text.now) tokens.now }
    requires within { at + 2 ≤ length parts.now }
    ensures { FoundAt infer_in (IsEntry at) qs at result }
{
    if !has_callable(parts, at) {
        return None;
    }
    let mode = mode_at(text, tokens, parts, at + 2)?;
    Some((Entry::Infer(at, mode), at + 3))
}

/// The item at a place.
pub(crate) fn item_at(
    alloc: Global,
    text: &[u8],
    tokens: &[Token],
    parts: &[Part],
    at: usize,
) -> Result<Option<(Entry, usize)>, AllocError>
    ghost qs: { List phrases.Part }
    requires seen { AreSeen qs parts.now }
    requires begun { AreBegun (words_of text.now tokens.now) qs parts.now }
    requires tokens { All (IsTokenOf text.now) tokens.now }
    requires within { at ≤ length parts.now }
    ensures { IfOk result (FoundAt item_in (IsEntry at) qs at) }
{
    if !has_term(parts, at) {
        return Ok(None);
    }
    match operator_at(parts, at + 1) {
        Operator::Equals => Ok(with_term(parts, at + 2, Entry::Equate(at, at + 2))),
        Operator::InDomain => member_at(alloc, parts, at, at + 2),
        Operator::Compares(relation) => {
            Ok(with_term(parts, at + 2, Entry::Compare(relation, at, at + 2)))
        }
        Operator::Infers => Ok(infer_at(text, tokens, parts, at)),
        Operator::Other => Ok(with_callable(parts, at, Entry::Call(at))),
    }
}

fn is_body_entry(entry: &Entry) -> bool
    ensures { result ≡ is_body_entry entry.now }
{
    !matches!(entry, Entry::Infer(_, _))
}

fn is_query_entry(entry: &Entry) -> bool
    ensures { result ≡ is_query_entry entry.now }
{
    !matches!(entry, Entry::Call(_) | Entry::Compare(_, _, _))
}

/// Whether a body may hold the items: none is an annotated goal.
pub(crate) fn are_body_items(entries: &[Entry]) -> bool
    ensures { result ≡ list_all is_body_entry entries.now }
{
    entries.iter().all(is_body_entry)
}

/// Whether a query may hold the items: none is a call or a comparison.
pub(crate) fn are_query_items(entries: &[Entry]) -> bool
    ensures { result ≡ list_all is_query_entry entries.now }
{
    entries.iter().all(is_query_entry)
}
