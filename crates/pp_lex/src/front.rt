//! The token that a text begins with.
ghost use Rattle.std.specs.Prelude.{◌≡◌, ℕ, ◌+◌, ◌<◌, ◌≤◌, Bool, true, IsTrue, ◌||◌, cond, length, MatchOption, nat_eq, nat_le, slice_index};
ghost use Rattle.std.specs.List.{list_all, prefix_len};
ghost use Rattle.pp_language.specs.Texts.{is_digit, is_lower, is_word};
ghost use Rattle.pp_language.specs.Kinds.{value_of, greatest_size, is_plain_byte};
ghost use Rattle.pp_lex.specs.Fronts.{IsFront, HasNoFront, IsLongestRest, HasNoRest, begins_other};
ghost use Rattle.pp_language.specs.Kinds.{begins_number, begins_variable};

use pp_language::{Kind, is_digit, is_word, number_of};

/// Whether the byte stands for itself between quotes.
fn is_plain(byte: u8) -> bool
    ensures { result ≡ is_plain_byte byte }
{
    (b' '..=b'~').contains(&byte) && byte != b'\'' && byte != b'\\'
}

/// How many digits `rest` begins with.
fn digits_size(rest: &[u8]) -> usize
    ensures { result ≡ prefix_len is_digit rest.now }
{
    rest.iter().take_while(|byte| is_digit(**byte)).count()
}

/// How many letters, digits and `_` `rest` begins with.
fn word_size(rest: &[u8]) -> usize
    ensures { result ≡ prefix_len is_word rest.now }
{
    rest.iter().take_while(|byte| is_word(**byte)).count()
}

/// Whether the number that the digits write is in the range of integers.
fn is_in_range(digits: &[u8]) -> bool
    requires { IsTrue (list_all is_digit digits.now) }
    ensures { result ≡ nat_le (value_of 0 digits.now) greatest_size }
{
    number_of(digits).is_some()
}

/// The length of the integer that `rest` begins with.
fn integer(rest: &[u8]) -> Option<usize>
    requires some { 0 < length rest.now }
    requires begins { IsTrue (begins_number (slice_index rest.now 0)) }
    ensures { MatchOption result (HasNoFront rest.now) (IsFront rest.now Kind.Integer) }
{
    let sign = usize::from(rest[0] == b'-');
    let digits = &rest[sign..];
    let size = digits_size(digits);
    (size > 0 && is_in_range(&digits[..size])).then_some(sign + size)
}

/// The kind and the length of the word that `rest` begins with: an atom, or `infers`.
fn word(rest: &[u8]) -> (Kind, usize)
    requires some { 0 < length rest.now }
    requires begins { IsTrue (is_lower (slice_index rest.now 0)) }
    ensures { IsFront rest.now result.0 result.1 }
{
    let size = word_size(rest);
    let kind = if &rest[..size] == b"infers".as_slice() {
        Kind::Infers
    } else {
        Kind::Atom
    };
    (kind, size)
}

/// The length of the variable that `rest` begins with.
fn variable(rest: &[u8]) -> usize
    requires some { 0 < length rest.now }
    requires begins { IsTrue (begins_variable (slice_index rest.now 0)) }
    ensures { IsFront rest.now Kind.Variable result }
{
    word_size(rest)
}

/// The length of the longest rest of a quoted atom, behind its first quote.
fn quoted_rest(rest: &[u8]) -> Option<usize>
    ensures { MatchOption result (HasNoRest rest.now) (IsLongestRest rest.now) }
{
    let mut size = None;
    let mut is_open = true;
    for (at, byte) in rest.iter().enumerate() {
        if *byte == b'\'' {
            is_open = !is_open;
            if !is_open {
                size = Some(at + 1);
            }
        } else if !is_open || !is_plain(*byte) {
            return size;
        }
    }
    size
}

/// The length of the quoted atom that `rest` begins with.
fn quoted(rest: &[u8]) -> Option<usize>
    requires some { 0 < length rest.now }
    requires begins { slice_index rest.now 0 ≡ 39 }
    ensures { MatchOption result (HasNoFront rest.now) (IsFront rest.now Kind.Quoted) }
{
    let size = quoted_rest(&rest[1..])?;
    Some(1 + size)
}

/// The byte at a place, or 0 behind the end: 0 stands in no token.
fn byte_at(rest: &[u8], at: usize) -> u8
    ensures { result ≡ slice_index rest.now at }
{
    rest.get(at).copied().unwrap_or(0)
}

/// The token that is one of the fixed marks.
fn mark(rest: &[u8]) -> Option<(Kind, usize)>
    requires some { 0 < length rest.now }
    requires begins { IsTrue (begins_other (slice_index rest.now 0)) }
    ensures { MatchOption result (HasNoFront rest.now) (λ r. IsFront rest.now r.0 r.1) }
{
    match (byte_at(rest, 0), byte_at(rest, 1), byte_at(rest, 2)) {
        (b'(', _, _) => Some((Kind::Left, 1)),
        (b')', _, _) => Some((Kind::Right, 1)),
        (b'[', _, _) => Some((Kind::OpenSquare, 1)),
        (b']', _, _) => Some((Kind::CloseSquare, 1)),
        (b',', _, _) => Some((Kind::Comma, 1)),
        (b'.', b'.', _) => Some((Kind::Range, 2)),
        (b'.', _, _) => Some((Kind::Point, 1)),
        (b':', b'-', _) => Some((Kind::Neck, 2)),
        (b':', b':', _) => Some((Kind::InDomain, 2)),
        (b'?', b'-', _) => Some((Kind::Ask, 2)),
        (b'=', _, _) => Some((Kind::Equals, 1)),
        (b'#', b'<', _) => Some((Kind::Less, 2)),
        (b'#', b'=', b'<') => Some((Kind::AtMost, 3)),
        (b'#', b'=', _) => Some((Kind::Equal, 2)),
        (b'#', b'\\', b'=') => Some((Kind::Differ, 3)),
        _ => None,
    }
}

/// The kind and the length of the token that `rest` begins with.
pub fn front(rest: &[u8]) -> Option<(Kind, usize)>
    requires { 0 < length rest.now }
    ensures { MatchOption result (HasNoFront rest.now) (λ r. IsFront rest.now r.0 r.1) }
{
    match rest[0] {
        b'0'..=b'9' | b'-' => Some((Kind::Integer, integer(rest)?)),
        b'a'..=b'z' => Some(word(rest)),
        b'A'..=b'Z' | b'_' => Some((Kind::Variable, variable(rest))),
        b'\'' => Some((Kind::Quoted, quoted(rest)?)),
        _ => mark(rest),
    }
}
