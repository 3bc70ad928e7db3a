// How a source that holds its bytes gives them.
ghost use Rattle.std.specs.Prelude.{◌≡◌, min, length, take};

// Copies the first of `bytes` into the front of `into`, at most `piece`, and returns how many.
pub(crate) fn give(bytes: &[u8], piece: usize, into: &mut [u8]) -> usize
    ensures count { result ≡ min piece (min (length bytes.now) (length into.old)) }
    ensures given { take result into.new ≡ take result bytes.now }
{
    let n = piece.min(bytes.len().min(into.len()));
    into[..n].copy_from_slice(&bytes[..n]);
    n
}
