//! The parts of a sentence: terms, and what stands between them.
ghost use Rattle.std.specs.Prelude.{◌≡◌, ◌<◌, ◌^◌, All, IfOk, IsTrue, MatchOption, None, length, []};
ghost use Rattle.pp_algebra.specs.Canon.{firsts, has};
ghost use Rattle.pp_algebra.specs.Texts.{same_text};
ghost use Rattle.pp_language.specs.Tokens.{IsTokenOf};
ghost use Rattle.pp_language.specs.PartsOf.{parts_of};
ghost use Rattle.pp_parse.specs.Words.{words_of, texts_in, named_in, blanks_in};
ghost use Rattle.pp_parse.specs.Parts.{AreRead};

use crate::reading::Reading;
use crate::texts::text_of;
use crate::tokens::leaf_of;
use crate::variables::Variables;
use pp_language::{Kind, Token};
use pp_term::{Cell, Names};
use std::alloc::{AllocError, Global};

/// A term as the text writes it: its cells in prefix order, and the place of its first token in the sentence. An atom
/// may have any number of arguments here.
#[derive(Debug, Drop)]
pub struct Phrase {
    pub cells: Vec<Cell>,
    pub first: usize,
}

/// A part of a sentence: a term, or a token that stands between terms.
#[derive(Debug, Drop)]
pub enum Part {
    Term(Phrase),
    Mark(Kind),
}

/// The parts of a sentence; `None` exactly where its words are no parts. The names and variables are those of the
/// sentence.
pub(crate) fn read_parts(
    alloc: Global,
    text: &[u8],
    tokens: &[Token],
    names: &Names,
    variables: &Variables,
) -> Result<Option<Vec<Part>>, AllocError>
    requires tokens { All (IsTokenOf text.now) tokens.now }
    requires few { length tokens.now < 2 ^ 32 }
    requires names { All (λ x. IsTrue (has same_text names.now x)) (texts_in (words_of text.now tokens.now)) }
    requires named { variables.now.named ≡ firsts same_text [] (named_in (words_of text.now tokens.now)) }
    requires blanks { variables.now.blanks ≡ blanks_in (words_of text.now tokens.now) }
    ensures { IfOk result (λ found. MatchOption found
        (parts_of (words_of text.now tokens.now) ≡ None)
        (λ ps. AreRead names.now variables.now.named (words_of text.now tokens.now) ps.items)) }
{
    let mut reading = Reading::new(alloc);
    let mut next = variables.named.len() as u32 + variables.blanks;
    for i in (0..tokens.len()).rev() {
        let token = tokens[i];
        let written = text_of(text, token);
        let leaf = leaf_of(
            alloc,
            names,
            &variables.named,
            &mut next,
            token.kind,
            written,
        )?;
        if !reading.take(alloc, leaf, i)? {
            return Ok(None);
        }
    }
    Ok(reading.finish())
}
