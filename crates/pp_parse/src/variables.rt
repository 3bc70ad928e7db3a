//! The variables of a sentence.
ghost use Rattle.std.specs.Prelude.{◌≡◌, ◌+◌, ◌<◌, ◌^◌, All, IfOk, OnOk, length, []};
ghost use Rattle.pp_algebra.specs.Canon.{firsts};
ghost use Rattle.pp_algebra.specs.Texts.{same_text};
ghost use Rattle.pp_language.specs.Tokens.{IsTokenOf};
ghost use Rattle.pp_parse.specs.Words.{words_of, named_by, named_in, blanks_by, blanks_in};

use crate::texts::text_of;
use pp_language::{Kind, Token, is_same};
use pp_term::Names;
use std::alloc::{AllocError, Global};

/// The variables of a sentence: the texts of the named ones in order of first occurrence, and how many times `_`
/// stands in it.
#[derive(Debug, Drop)]
pub struct Variables {
    pub named: Names,
    pub blanks: u32,
}

/// Takes in the variable that a token of this kind writes, where it writes one.
fn take_in(variables: &mut Variables, kind: Kind, written: &[u8]) -> Result<(), AllocError>
    requires { variables.old.blanks + 1 < 2 ^ 32 }
    ensures named { OnOk result (variables.new.named ≡ firsts same_text variables.old.named (named_by kind written.now)) }
    ensures blanks { OnOk result (variables.new.blanks ≡ variables.old.blanks + blanks_by kind written.now) }
{
    match kind {
        Kind::Variable if is_same(written, b"_") => variables.blanks += 1,
        Kind::Variable => {
            variables.named.intern(written)?;
        }
        _ => {}
    }
    Ok(())
}

/// The variables of a sentence.
pub(crate) fn find_variables(
    alloc: Global,
    text: &[u8],
    tokens: &[Token],
) -> Result<Variables, AllocError>
    requires tokens { All (IsTokenOf text.now) tokens.now }
    requires few { length tokens.now < 2 ^ 32 }
    ensures named { IfOk result (λ v. v.named ≡ firsts same_text [] (named_in (words_of text.now tokens.now))) }
    ensures blanks { IfOk result (λ v. v.blanks ≡ blanks_in (words_of text.now tokens.now)) }
{
    let mut variables = Variables {
        named: Names::new(alloc),
        blanks: 0,
    };
    for token in tokens {
        take_in(&mut variables, token.kind, text_of(text, *token))?;
    }
    Ok(variables)
}
