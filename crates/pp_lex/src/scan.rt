//! The scan of a text.
ghost use Rattle.std.specs.Prelude.{◌≤◌, List, [], ◌∷◌, ◌++◌, length, All, IfOk, OnOk};
ghost use Rattle.std.specs.List.{flat_map};
ghost use Rattle.pp_language.specs.declared.token.Token.{Token};
ghost use Rattle.pp_language.specs.Tokens.{IsTokenOf};
ghost use Rattle.pp_language.specs.Sentences.{FallInto, AreSentences};
ghost use Rattle.pp_lex.specs.Readings.{ending_of, tokens_of, IsItem};
ghost use Rattle.pp_lex.specs.Spans.{AreSpans};

use crate::front::front;
use crate::gap::measure_gap;
use crate::lists::{Sentence, SentenceList, Sentences, Tail, Tokens};
use pp_language::{Kind, TEXT_LIMIT, Token};
use std::alloc::{AllocError, Global};
use std::mem;

/// What stands behind a place, past white space and comments.
#[derive(Clone, Copy, Debug)]
pub(crate) enum Item {
    Token(Token),
    End,
    Bad,
}

/// What stands behind a place.
pub(crate) fn next(bytes: &[u8], place: usize) -> Item
    requires within { place ≤ length bytes.now }
    requires small { length bytes.now ≤ TEXT_LIMIT }
    ensures { IsItem bytes.now place result }
{
    let gap = measure_gap(&bytes[place..]);
    if gap.is_last {
        return Item::End;
    }
    let first = place + gap.size;
    match front(&bytes[first..]) {
        Some((kind, size)) => Item::Token(Token {
            kind,
            first: first as u32,
            last: (first + size) as u32,
        }),
        None => Item::Bad,
    }
}

/// Adds a token to what is collected: a point ends a sentence.
fn add(
    alloc: Global,
    list: &mut Vec<Sentence>,
    tokens: &mut Vec<Token>,
    token: Token,
) -> Result<(), AllocError>
    ensures { (all : List Token) → FallInto all (tokens_of list.old.items) tokens.old.items
        → OnOk result (FallInto (all ++ token ∷ []) (tokens_of list.new.items) tokens.new.items) }
{
    match token.kind {
        Kind::Point => {
            let tokens = Tokens::from_vec(mem::replace(tokens, Vec::new(alloc)));
            list.push(Sentence { tokens })?;
        }
        _ => tokens.push(token)?,
    }
    Ok(())
}

/// The sentences of a text of at most `TEXT_LIMIT` bytes, up to the first place where no token begins.
pub fn sentences(alloc: Global, bytes: &[u8]) -> Result<Sentences, AllocError>
    requires { length bytes.now ≤ TEXT_LIMIT }
    ensures exact { IfOk result (λ s. AreSentences bytes.now (tokens_of s.list) (ending_of s.tail)) }
    ensures tokens { IfOk result (λ s. All (λ u. All (IsTokenOf bytes.now) u.tokens) s.list) }
    ensures ascending { IfOk result (λ s. AreSpans 0 (flat_map (λ u. u.tokens) s.list) (length bytes.now)) }
{
    let mut list = Vec::new(alloc);
    let mut tokens = Vec::new(alloc);
    let mut place = 0;
    let tail = loop {
        match next(bytes, place) {
            Item::Token(token) => {
                add(alloc, &mut list, &mut tokens, token)?;
                place = token.last as usize;
            }
            Item::End if tokens.is_empty() => break Tail::Clean,
            Item::End => break Tail::Cut,
            Item::Bad => break Tail::Bad,
        }
    };
    Ok(Sentences {
        list: SentenceList::from_vec(list),
        tail,
    })
}
