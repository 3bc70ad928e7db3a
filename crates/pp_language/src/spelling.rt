//! What tokens are spelled with: letters and digits, the number that digits write, and whether two texts are one.
ghost use Rattle.std.specs.Prelude.{◌≡◌, ◌<◌, ◌≤◌, IsTrue, MatchOption};
ghost use Rattle.std.specs.List.{list_all};
ghost use Rattle.pp_algebra.specs.Texts.{same_text};
ghost use Rattle.pp_language.specs.Texts.{is_digit, is_lower, is_word};
ghost use Rattle.pp_language.specs.Kinds.{value_of, greatest_size};

const GREATEST_SIZE: u64 = 1_000_000_000_000;

/// Whether the byte is a digit.
pub fn is_digit(byte: u8) -> bool
    ensures { result ≡ is_digit byte }
{
    byte.is_ascii_digit()
}

/// Whether the byte is a lower-case letter.
pub fn is_lower(byte: u8) -> bool
    ensures { result ≡ is_lower byte }
{
    byte.is_ascii_lowercase()
}

/// Whether the byte is a letter, a digit or `_`.
pub fn is_word(byte: u8) -> bool
    ensures { result ≡ is_word byte }
{
    byte.is_ascii_alphanumeric() || byte == b'_'
}

/// The number that digits write, where it is at most 1,000,000,000,000.
pub fn number_of(digits: &[u8]) -> Option<u64>
    requires { IsTrue (list_all is_digit digits.now) }
    ensures number { MatchOption result (greatest_size < value_of 0 digits.now) (λ n. n ≡ value_of 0 digits.now) }
    ensures in_range { MatchOption result (greatest_size < value_of 0 digits.now) (λ n. n ≤ greatest_size) }
{
    let mut value: u64 = 0;
    for digit in digits {
        value = 10 * value + u64::from(*digit - b'0');
        if value > GREATEST_SIZE {
            return None;
        }
    }
    Some(value)
}

/// Whether both are one text.
pub fn is_same(left: &[u8], right: &[u8]) -> bool
    ensures { result ≡ same_text left.now right.now }
{
    left == right
}
