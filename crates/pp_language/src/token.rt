//! The kinds of tokens, and where a token stands.

use pp_list::Copied;
use std::alloc::AllocError;

/// A kind of token, with its spelling. The last four are the comparisons.
#[derive(Clone, Copy, Debug, PartialEq, Eq)]
pub enum Kind {
    /// Digits, with or without `-` directly before them: `42`, `-0007`.
    Integer,
    /// A lower-case letter, then letters, digits and `_`, but not `infers`: `p`, `fooBar_2`.
    Atom,
    /// An atom between quotes, where two quotes stand for one: `'it''s'`.
    Quoted,
    /// The word `infers`.
    Infers,
    /// An upper-case letter or `_`, then letters, digits and `_`: `X`, `_`, `_7`.
    Variable,
    /// `(`
    Left,
    /// `)`
    Right,
    /// `[`
    OpenSquare,
    /// `]`
    CloseSquare,
    /// `,`
    Comma,
    /// `.`, which ends a sentence.
    Point,
    /// `..`
    Range,
    /// `:-`
    Neck,
    /// `?-`
    Ask,
    /// `=`
    Equals,
    /// `::`
    InDomain,
    /// `#<`
    Less,
    /// `#=<`
    AtMost,
    /// `#=`
    Equal,
    /// `#\=`
    Differ,
}

/// A token of a text.
#[derive(Clone, Copy, Debug, PartialEq, Eq)]
pub struct Token {
    /// What the token is.
    pub kind: Kind,
    /// The place of its first byte.
    pub first: u32,
    /// The place after its last byte.
    pub last: u32,
}

impl Copied for Token {
    fn copied(&self) -> Result<Token, AllocError> {
        Ok(*self)
    }
}
