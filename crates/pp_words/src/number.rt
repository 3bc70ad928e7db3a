// Numbers of one to seven digits.
ghost use Rattle.std.specs.Prelude.{◌≡◌, false, MatchOption};
ghost use Rattle.std.specs.List.{list_all};
ghost use Rattle.pp_language.specs.Texts.{is_digit};
ghost use Rattle.pp_language.specs.Kinds.{are_digits};
ghost use Rattle.pp_language.specs.Commands.{is_number, IsNumber};

use pp_language::{is_digit, number_of};

const MOST_DIGITS: usize = 7;

fn all_digits(bytes: &[u8]) -> bool
    ensures { result ≡ list_all is_digit bytes.now }
{
    bytes.iter().all(|byte| is_digit(*byte))
}

/// Whether the bytes are digits, at least one.
fn are_digits(word: &[u8]) -> bool
    ensures { result ≡ are_digits word.now }
{
    match word {
        [] => false,
        [first, rest @ ..] => is_digit(*first) && all_digits(rest),
    }
}

/// The number that a word of one to seven digits writes.
pub(crate) fn number(word: &[u8]) -> Option<u32>
    ensures { MatchOption result (is_number word.now ≡ false) (λ n. IsNumber word.now n) }
{
    if word.len() > MOST_DIGITS || !are_digits(word) {
        return None;
    }
    let value = number_of(word)?;
    Some(value as u32)
}
