//! Parses a sentence.
ghost use Rattle.std.specs.Prelude.{◌≡◌, ◌+◌, ◌<◌, ◌^◌, All, IfOk, IfSome, IsTrue, MatchOption, length};
ghost use Rattle.pp_algebra.specs.Canon.{has};
ghost use Rattle.pp_algebra.specs.Texts.{same_text};
ghost use Rattle.pp_language.specs.Tokens.{IsTokenOf};
ghost use Rattle.pp_language.specs.Statements.{Statement, Says};
ghost use Rattle.pp_parse.specs.Words.{words_of, texts_in};
ghost use Rattle.pp_parse.specs.Parsed.{IsParsed};

use crate::parts::{Part, read_parts};
use crate::statement::{Layout, layout_of};
use crate::variables::{Variables, find_variables};
use pp_language::Token;
use pp_term::Names;
use std::alloc::{AllocError, Global};

/// A sentence that is a statement: the variables that stand in it, its parts, and which statement they are.
#[derive(Debug, Drop)]
pub struct Parsed {
    pub variables: Variables,
    pub parts: Vec<Part>,
    pub layout: Layout,
}

/// The statement that a sentence is; `None` exactly where it is none. The names hold the texts of all its atoms and named
/// variables.
pub fn parse(
    alloc: Global,
    text: &[u8],
    tokens: &[Token],
    names: &Names,
) -> Result<Option<Parsed>, AllocError>
    requires tokens { All (IsTokenOf text.now) tokens.now }
    requires few { length tokens.now < 2 ^ 32 }
    requires names { All (λ x. IsTrue (has same_text names.now x)) (texts_in (words_of text.now tokens.now)) }
    ensures parsed { IfOk result (λ found. MatchOption found
        ((s : Statement) → Says (words_of text.now tokens.now) s → ⊥)
        (IsParsed names.now (words_of text.now tokens.now))) }
    ensures few { IfOk result (λ found. IfSome found (λ r. length r.variables.named + r.variables.blanks < 2 ^ 32)) }
    ensures named { IfOk result (λ found. IfSome found (λ r. All (λ x. IsTrue (has same_text names.now x)) r.variables.named)) }
{
    let variables = find_variables(alloc, text, tokens)?;
    let Some(parts) = read_parts(alloc, text, tokens, names, &variables)? else {
        return Ok(None);
    };
    let Some(layout) = layout_of(alloc, text, tokens, names, &parts)? else {
        return Ok(None);
    };
    Ok(Some(Parsed {
        variables,
        parts,
        layout,
    }))
}
