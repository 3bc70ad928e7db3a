//! What a token is to the terms of its sentence.
ghost use Rattle.std.specs.Prelude.{◌≡◌, ◌+◌, ◌≤◌, ◌<◌, ◌^◌, All, IfOk, OnOk, IsTrue, length};
ghost use Rattle.std.specs.List.{list_all};
ghost use Rattle.pp_algebra.specs.Canon.{has};
ghost use Rattle.pp_language.specs.Texts.{is_digit};
ghost use Rattle.pp_algebra.specs.Texts.{same_text};
ghost use Rattle.pp_language.specs.Kinds.{value_of, greatest_size, is_integer_text, spells};
ghost use Rattle.pp_language.specs.Meanings.{integer_of, texts_by};
ghost use Rattle.pp_parse.specs.Words.{named_by, blanks_by};
ghost use Rattle.pp_parse.specs.Leaves.{leaf_by};
ghost use Rattle.pp_parse.specs.Terms.{number_of};

use crate::names::find;
use pp_language::{Kind, is_same};
use pp_term::{Cell, Names};
use std::alloc::{AllocError, Global};

/// What a token is: the number of an atom, which may have arguments, the cell of an integer or a variable, or neither.
#[derive(Clone, Copy, Debug)]
pub(crate) enum Leaf {
    Name(u32),
    Whole(Cell),
    Mark(Kind),
}

/// The number that digits write.
fn size(digits: &[u8]) -> u64
    requires digits { IsTrue (list_all is_digit digits.now) }
    requires in_range { value_of 0 digits.now ≤ greatest_size }
    ensures { result ≡ value_of 0 digits.now }
{
    let mut value: u64 = 0;
    for digit in digits {
        value = 10 * value + u64::from(*digit - b'0');
    }
    value
}

/// The integer that a token writes.
fn integer(written: &[u8]) -> i64
    requires { IsTrue (is_integer_text written.now) }
    ensures { result ≡ integer_of written.now }
{
    match written {
        [b'-', digits @ ..] => -(size(digits) as i64),
        digits => size(digits) as i64,
    }
}

/// The number of a variable. `next` is the number of the next `_` behind it, and then that of the next one from it on.
fn variable(named: &Names, next: &mut u32, written: &[u8]) -> u32
    requires named { All (λ x. IsTrue (has same_text named.now x)) (named_by Kind.Variable written.now) }
    requires next { blanks_by Kind.Variable written.now ≤ next.old }
    ensures next { next.new + blanks_by Kind.Variable written.now ≡ next.old }
    ensures number { result ≡ number_of named.now next.new written.now }
{
    if is_same(written, b"_") {
        *next -= 1;
        *next
    } else {
        named.find(written).unwrap()
    }
}

/// What a token of this kind is. `next` is the number of the next `_` behind it, and then that of the next one from it
/// on.
pub(crate) fn leaf_of(
    alloc: Global,
    names: &Names,
    named: &Names,
    next: &mut u32,
    kind: Kind,
    written: &[u8],
) -> Result<Leaf, AllocError>
    requires spelled { IsTrue (spells kind written.now) }
    requires names { All (λ x. IsTrue (has same_text names.now x)) (texts_by kind written.now) }
    requires named { All (λ x. IsTrue (has same_text named.now x)) (named_by kind written.now) }
    requires next { blanks_by kind written.now ≤ next.old }
    ensures next { OnOk result (next.new + blanks_by kind written.now ≡ next.old) }
    ensures leaf { IfOk result (λ l. l ≡ leaf_by names.now named.now next.new kind written.now) }
{
    let leaf = match kind {
        Kind::Integer => Leaf::Whole(Cell::Int(integer(written))),
        Kind::Atom | Kind::Quoted => Leaf::Name(find(alloc, names, kind, written)?.unwrap()),
        Kind::Variable => Leaf::Whole(Cell::Var(variable(named, next, written))),
        mark => Leaf::Mark(mark),
    };
    Ok(leaf)
}
