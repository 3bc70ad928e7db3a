//! How many integers lie in intervals, and which is at a place.
ghost use Rattle.std.specs.Prelude.{◌≡◌, ◌≤ℤ◌, length, slice_get};
ghost use Rattle.pp_domain.specs.Intervals.{IsDomain, count, integers};
ghost use Rattle.pp_algebra.specs.Members.{IsInteger};

// How many integers there are from `low` to `high`.
fn count_of(low: i64, high: i64) -> u64
    requires low { IsInteger low }
    requires high { IsInteger high }
    requires some { low ≤ℤ high }
    ensures { result ≡ count low high }
{
    (high - low + 1) as u64
}

// How many integers lie in the intervals.
pub fn total(intervals: &[(i64, i64)]) -> u64
    requires { IsDomain intervals.now }
    ensures { result ≡ length (integers intervals.now) }
{
    let mut total = 0;
    for &(low, high) in intervals {
        total += count_of(low, high);
    }
    total
}

// The integer at `place` in ascending order, from 0.
pub fn nth_of(intervals: &[(i64, i64)], place: u64) -> Option<i64>
    requires { IsDomain intervals.now }
    ensures { result ≡ slice_get (integers intervals.now) place }
{
    let mut left = place;
    for &(low, high) in intervals {
        let count = count_of(low, high);
        if left < count {
            return Some(low + left as i64);
        }
        left -= count;
    }
    None
}
