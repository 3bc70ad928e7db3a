//! Names and atoms.
ghost use Rattle.std.specs.Prelude.{◌≡◌, ◌++◌, OnOk};
ghost use Rattle.std.specs.List.{list_all};
ghost use Rattle.pp_language.specs.Kinds.{is_plain_atom};
ghost use Rattle.pp_language.specs.Texts.{is_word};
ghost use Rattle.pp_language.specs.Printing.{doubled, atom_text, name_at};

use pp_language::{is_lower, is_word};
use pp_term::Names;
use std::alloc::AllocError;

const QUOTE: u8 = b'\'';

/// Whether the bytes are letters, digits and `_`.
fn are_words(bytes: &[u8]) -> bool
    ensures { result ≡ list_all is_word bytes.now }
{
    bytes.iter().all(|byte| is_word(*byte))
}

/// Whether an atom of this text is written without quotes.
fn is_plain(text: &[u8]) -> bool
    ensures { result ≡ is_plain_atom text.now }
{
    match text {
        [] => false,
        [first, rest @ ..] => is_lower(*first) && are_words(rest) && text != b"infers".as_slice(),
    }
}

/// Appends the text with each quote doubled.
fn write_doubled(out: &mut Vec<u8>, text: &[u8]) -> Result<(), AllocError>
    ensures { OnOk result (out.new.items ≡ out.old.items ++ doubled text.now) }
{
    for byte in text {
        if *byte == QUOTE {
            out.push(QUOTE)?;
        }
        out.push(*byte)?;
    }
    Ok(())
}

/// Appends an atom of this text.
fn write_atom(out: &mut Vec<u8>, text: &[u8]) -> Result<(), AllocError>
    ensures { OnOk result (out.new.items ≡ out.old.items ++ atom_text text.now) }
{
    if is_plain(text) {
        out.extend_from_slice(text)?;
    } else {
        out.push(QUOTE)?;
        write_doubled(out, text)?;
        out.push(QUOTE)?;
    }
    Ok(())
}

/// The text of a name, empty where there is no such name.
pub(crate) fn name_text(names: &Names, name: u32) -> &[u8]
    ensures { result.now ≡ name_at names.now name }
{
    if (name as usize) < names.len() {
        names.text(name)
    } else {
        b""
    }
}

/// Appends the name as an atom.
pub(crate) fn write_name(out: &mut Vec<u8>, names: &Names, name: u32) -> Result<(), AllocError>
    ensures { OnOk result (out.new.items ≡ out.old.items ++ atom_text (name_at names.now name)) }
{
    write_atom(out, name_text(names, name))
}
