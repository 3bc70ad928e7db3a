//! The texts of tokens.
ghost use Rattle.std.specs.Prelude.{◌≡◌, ◌≤◌, length, IfOk};
ghost use Rattle.pp_language.specs.Texts.{part};
ghost use Rattle.pp_language.specs.Kinds.{unquoted};

use pp_language::Token;
use std::alloc::{AllocError, Global};

/// The bytes of a token.
pub(crate) fn text_of<'a>(text: &'a [u8], token: Token) -> &'a [u8]
    requires ordered { token.first ≤ token.last }
    requires within { token.last ≤ length text.now }
    ensures { result.now ≡ part text.now token.first token.last }
{
    &text[token.first as usize..token.last as usize]
}

/// The text of the atom that a quoted atom writes.
pub(crate) fn unquoted(alloc: Global, quoted: &[u8]) -> Result<Vec<u8>, AllocError>
    ensures { IfOk result (λ v. v.items ≡ unquoted quoted.now) }
{
    let mut text = Vec::new(alloc);
    let [_, rest @ ..] = quoted else {
        return Ok(text);
    };
    let mut is_open = true;
    for byte in rest {
        if *byte == b'\'' && is_open {
            is_open = false;
        } else {
            text.push(if is_open { *byte } else { b'\'' })?;
            is_open = true;
        }
    }
    Ok(text)
}
