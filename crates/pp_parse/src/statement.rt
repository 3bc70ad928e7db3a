//! The statement that the parts of a sentence are.
ghost use Rattle.std.specs.Prelude.{◌≡◌, ◌≤◌, ◌<◌, ◌^◌, All, List, length, drop, true, IfOk, MatchOption, MatchBool, IsTrue, Some};
ghost use Rattle.pp_algebra.specs.Canon.{has};
ghost use Rattle.pp_language.specs.Texts.{Text};
ghost use Rattle.pp_algebra.specs.Texts.{same_text};
ghost use Rattle.pp_language.specs.Tokens.{IsTokenOf};
ghost use Rattle.pp_language.specs.Words.{Word, is_built_in};
ghost use Rattle.pp_language.specs.Phrases as phrases;
ghost use Rattle.pp_language.specs.PartsOf.{are_parts};
ghost use Rattle.pp_language.specs.Statements.{Item, Statement, directive, clause, statement_parts, is_statement, Says};
ghost use Rattle.pp_parse.specs.Words.{words_of, texts_in};
ghost use Rattle.pp_parse.specs.Parts.{AreRead};
ghost use Rattle.pp_parse.specs.Seen.{AreSeen, AreBegun, IsNamed};
ghost use Rattle.pp_parse.specs.Items.{has_head};
ghost use Rattle.pp_parse.specs.Layouts.{IsLayout, IsLaidOut, HasNoItems, HasItems};

use crate::items::{Entry, are_body_items, are_query_items, item_at};
use crate::lookahead::{has_mark, term_at};
use crate::parts::Part;
use crate::texts::text_of;
use pp_language::{Kind, Token, is_same};
use pp_term::{Cell, Names};
use std::alloc::{AllocError, Global};

/// What a sentence is, with its items in order. The head of a clause is its part 0.
#[derive(Debug, Drop)]
pub enum Layout {
    Directive,
    Clause(Vec<Entry>),
    Query(Vec<Entry>),
}

/// The items that stand from a place to the end of the sentence, with commas between them.
fn items(
    alloc: Global,
    text: &[u8],
    tokens: &[Token],
    parts: &[Part],
    at: usize,
) -> Result<Option<Vec<Entry>>, AllocError>
    ghost qs: { List phrases.Part }
    requires seen { AreSeen qs parts.now }
    requires formed { IsTrue (are_parts qs) }
    requires begun { AreBegun (words_of text.now tokens.now) qs parts.now }
    requires tokens { All (IsTokenOf text.now) tokens.now }
    requires within { at ≤ length parts.now }
    ensures { IfOk result (λ r. MatchOption r
        (HasNoItems (drop at qs))
        (λ es. HasItems at (drop at qs) es.items)) }
{
    let mut entries = Vec::new(alloc);
    let mut place = at;
    loop {
        let Some((entry, next)) = item_at(alloc, text, tokens, parts, place)? else {
            return Ok(None);
        };
        entries.push(entry)?;
        if next == parts.len() {
            return Ok(Some(entries));
        }
        if !has_mark(parts, next, Kind::Comma) {
            return Ok(None);
        }
        place = next + 1;
    }
}

fn is_built_in(name: &[u8], arity: u32) -> bool
    ensures { result ≡ is_built_in name.now arity }
{
    (is_same(name, b"plus") && arity == 3)
        || (is_same(name, b"times") && arity == 3)
        || (is_same(name, b"indomain") && arity == 1)
}

/// Whether the first part is an atom, with arguments or without, that is no built-in.
fn is_head(names: &Names, parts: &[Part]) -> bool
    ghost qs: { List phrases.Part }
    requires seen { AreSeen qs parts.now }
    requires named { IsNamed names.now qs parts.now }
    ensures { result ≡ has_head qs }
{
    let Some(term) = term_at(parts, 0) else {
        return false;
    };
    match term.cells.first() {
        Some(Cell::Compound(name, arity)) => !is_built_in(names.text(*name), *arity),
        Some(Cell::Atom(_)) => true,
        Some(Cell::Int(_) | Cell::Var(_)) => false,
        None => false,
    }
}

/// The clause that the parts are.
fn clause(
    alloc: Global,
    text: &[u8],
    tokens: &[Token],
    names: &Names,
    parts: &[Part],
) -> Result<Option<Layout>, AllocError>
    ghost qs: { List phrases.Part }
    requires seen { AreSeen qs parts.now }
    requires formed { IsTrue (are_parts qs) }
    requires begun { AreBegun (words_of text.now tokens.now) qs parts.now }
    requires tokens { All (IsTokenOf text.now) tokens.now }
    requires named { IsNamed names.now qs parts.now }
    ensures { IfOk result (λ r. MatchOption r
        ((p : phrases.Phrase) (xs : List Item) → IsTrue (is_statement (clause p xs)) → qs ≡ statement_parts (clause p xs) → ⊥)
        (IsLaidOut qs)) }
{
    if !is_head(names, parts) {
        return Ok(None);
    }
    if parts.len() == 1 {
        return Ok(Some(Layout::Clause(Vec::new(alloc))));
    }
    if !has_mark(parts, 1, Kind::Neck) {
        return Ok(None);
    }
    let Some(entries) = items(alloc, text, tokens, parts, 2)? else {
        return Ok(None);
    };
    if !are_body_items(&entries) {
        return Ok(None);
    }
    Ok(Some(Layout::Clause(entries)))
}

/// The clause or query that the parts are.
fn clause_or_query(
    alloc: Global,
    text: &[u8],
    tokens: &[Token],
    names: &Names,
    parts: &[Part],
) -> Result<Option<Layout>, AllocError>
    ghost qs: { List phrases.Part }
    requires seen { AreSeen qs parts.now }
    requires formed { IsTrue (are_parts qs) }
    requires begun { AreBegun (words_of text.now tokens.now) qs parts.now }
    requires named { IsNamed names.now qs parts.now }
    requires tokens { All (IsTokenOf text.now) tokens.now }
    ensures { IfOk result (λ r. MatchOption r
        ((s : Statement) → IsTrue (is_statement s) → qs ≡ statement_parts s → (w : Word) × (s ≡ directive w))
        (IsLaidOut qs)) }
{
    if !has_mark(parts, 0, Kind::Ask) {
        return clause(alloc, text, tokens, names, parts);
    }
    let Some(entries) = items(alloc, text, tokens, parts, 1)? else {
        return Ok(None);
    };
    if !are_query_items(&entries) {
        return Ok(None);
    }
    Ok(Some(Layout::Query(entries)))
}

/// Whether the tokens are a directive, which names a library.
fn is_directive(text: &[u8], tokens: &[Token]) -> bool
    requires { All (IsTokenOf text.now) tokens.now }
    ensures { MatchBool result
        ((w : Word) × Says (words_of text.now tokens.now) (directive w))
        ((w : Word) → Says (words_of text.now tokens.now) (directive w) → ⊥) }
{
    let [neck, lib, left, name, right] = tokens else {
        return false;
    };
    match (neck.kind, lib.kind, left.kind, name.kind, right.kind) {
        (Kind::Neck, Kind::Atom, Kind::Left, Kind::Atom, Kind::Right) => {
            is_same(text_of(text, *lib), b"lib")
        }
        _ => false,
    }
}

/// The statement of a sentence by its parts; `None` exactly where it says none.
pub(crate) fn layout_of(
    alloc: Global,
    text: &[u8],
    tokens: &[Token],
    names: &Names,
    parts: &[Part],
) -> Result<Option<Layout>, AllocError>
    requires tokens { All (IsTokenOf text.now) tokens.now }
    requires names { All (λ x. IsTrue (has same_text names.now x)) (texts_in (words_of text.now tokens.now)) }
    requires read { (named : List Text) × AreRead names.now named (words_of text.now tokens.now) parts.now }
    ensures { IfOk result (λ r. MatchOption r
        ((s : Statement) → Says (words_of text.now tokens.now) s → ⊥)
        (λ l. (s : Statement) × Says (words_of text.now tokens.now) s × IsLayout s l)) }
{
    if is_directive(text, tokens) {
        return Ok(Some(Layout::Directive));
    }
    clause_or_query(alloc, text, tokens, names, parts)
}
