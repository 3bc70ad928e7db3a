//! The names of a text.
ghost use Rattle.std.specs.Prelude.{◌≡◌, All, IfOk, OnOk, MatchOption, IsTrue, [], false};
ghost use Rattle.std.specs.List.{flat_map};
ghost use Rattle.pp_algebra.specs.Canon.{firsts, has, place};
ghost use Rattle.pp_algebra.specs.Texts.{same_text};
ghost use Rattle.pp_language.specs.Tokens.{IsTokenOf};
ghost use Rattle.pp_language.specs.Words.{atom_of};
ghost use Rattle.pp_language.specs.Meanings.{texts_by};
ghost use Rattle.pp_parse.specs.Words.{words_of, texts_in};

use crate::texts::{text_of, unquoted};
use pp_language::{Kind, Token, is_same};
use pp_lex::Sentence;
use pp_term::Names;
use std::alloc::{AllocError, Global};

/// Takes in the text that a token of this kind brings, where it brings one.
fn intern(alloc: Global, names: &mut Names, kind: Kind, written: &[u8]) -> Result<(), AllocError>
    ensures { OnOk result (names.new ≡ firsts same_text names.old (texts_by kind written.now)) }
{
    match kind {
        Kind::Variable if is_same(written, b"_") => {}
        Kind::Atom | Kind::Variable => {
            names.intern(written)?;
        }
        Kind::Quoted => {
            let text = unquoted(alloc, written)?;
            names.intern(&text)?;
        }
        _ => {}
    }
    Ok(())
}

/// Takes in the texts that these tokens bring.
fn intern_all(
    alloc: Global,
    names: &mut Names,
    text: &[u8],
    tokens: &[Token],
) -> Result<(), AllocError>
    requires { All (IsTokenOf text.now) tokens.now }
    ensures { OnOk result (names.new ≡ firsts same_text names.old (texts_in (words_of text.now tokens.now))) }
{
    for token in tokens {
        intern(alloc, names, token.kind, text_of(text, *token))?;
    }
    Ok(())
}

/// The names of a text: its atoms and named variables, in order of first occurrence.
pub fn intern_names(alloc: Global, text: &[u8], sentences: &[Sentence]) -> Result<Names, AllocError>
    requires { All (λ s. All (IsTokenOf text.now) s.tokens) sentences.now }
    ensures { IfOk result (λ names. names ≡ firsts same_text [] (texts_in (flat_map (λ s. words_of text.now s.tokens) sentences.now))) }
{
    let mut names = Names::new(alloc);
    for sentence in sentences {
        intern_all(alloc, &mut names, text, sentence.tokens.as_slice())?;
    }
    Ok(names)
}

/// The number of the atom that a token of this kind writes.
pub(crate) fn find(
    alloc: Global,
    names: &Names,
    kind: Kind,
    written: &[u8],
) -> Result<Option<u32>, AllocError>
    ensures { IfOk result (λ found. MatchOption found
        (has same_text names.now (atom_of kind written.now) ≡ false)
        (λ n. IsTrue (has same_text names.now (atom_of kind written.now)) × (n ≡ place same_text names.now (atom_of kind written.now)))) }
{
    match kind {
        Kind::Quoted => {
            let text = unquoted(alloc, written)?;
            Ok(names.find(&text))
        }
        _ => Ok(names.find(written)),
    }
}
