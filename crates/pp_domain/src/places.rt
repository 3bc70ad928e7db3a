//! Where a value stands among intervals, and how it is taken out.
ghost use Rattle.std.specs.Prelude.{◌≡◌, ◌++◌, ◌∷◌, [], ◌<◌, ◌≤◌, ◌<ℤ◌, ◌≤ℤ◌, ◌≢◌, ◌↔◌, ℤ, pos, length, slice_index_or, IsTrue, IfOk, OnOk};
ghost use Rattle.std.specs.List.{AllWithin};
ghost use Rattle.pp_domain.specs.Intervals.{IsDomain, IsApartInside, Lies};

use std::alloc::{AllocError, Global};

// How many intervals end below `value`.
pub fn ended_below(intervals: &[(i64, i64)], value: i64) -> usize
    requires { IsDomain intervals.now }
    ensures bound { result ≤ length intervals.now }
    ensures before { AllWithin (λ p. p.1 <ℤ value) intervals.now 0 result }
    ensures after { AllWithin (λ p. value ≤ℤ p.1) intervals.now result (length intervals.now) }
{
    let mut low = 0;
    let mut high = intervals.len();
    while low < high {
        let middle = low + (high - low) / 2;
        if intervals[middle].1 < value {
            low = middle + 1;
        } else {
            high = middle;
        }
    }
    low
}

// Whether `value` lies in one of the intervals.
pub fn lies_in(intervals: &[(i64, i64)], value: i64) -> bool
    requires { IsDomain intervals.now }
    ensures { IsTrue result ↔ Lies intervals.now value }
{
    let place = ended_below(intervals, value);
    place < intervals.len() && intervals[place].0 <= value
}

// Adds the interval from `low` to `high` where it holds an integer.
pub fn push_interval(intervals: &mut Vec<(i64, i64)>, low: i64, high: i64) -> Result<(), AllocError>
    ensures some { low ≤ℤ high → OnOk result (intervals.new.items ≡ intervals.old.items ++ (low, high) ∷ []) }
    ensures none { high <ℤ low → OnOk result (intervals.new.items ≡ intervals.old.items) }
{
    if low <= high {
        intervals.push((low, high))?;
    }
    Ok(())
}

// The intervals of all integers but `value`.
pub fn without_value(
    alloc: Global,
    intervals: &[(i64, i64)],
    value: i64,
) -> Result<Vec<(i64, i64)>, AllocError>
    requires { IsDomain intervals.now }
    ensures apart { IfOk result (λ rest. IsApartInside rest.items) }
    ensures others { IfOk result (λ rest. (v : ℤ) → Lies rest.items v ↔ (Lies intervals.now v × (v ≢ value))) }
{
    let place = ended_below(intervals, value);
    if place < intervals.len() && intervals[place].0 <= value {
        split_at(alloc, intervals, place, value)
    } else {
        Vec::from_slice(alloc, intervals)
    }
}

// The intervals without `value`, which lies in the one at `place`.
fn split_at(
    alloc: Global,
    intervals: &[(i64, i64)],
    place: usize,
    value: i64,
) -> Result<Vec<(i64, i64)>, AllocError>
    requires domain { IsDomain intervals.now }
    requires place { place < length intervals.now }
    requires begins { (slice_index_or intervals.now place (pos 0, pos 0)).0 ≤ℤ value }
    requires ends { value ≤ℤ (slice_index_or intervals.now place (pos 0, pos 0)).1 }
    ensures apart { IfOk result (λ rest. IsApartInside rest.items) }
    ensures others { IfOk result (λ rest. (v : ℤ) → Lies rest.items v ↔ (Lies intervals.now v × (v ≢ value))) }
{
    let (low, high) = intervals[place];
    let mut rest = Vec::with_capacity(alloc, intervals.len() + 1)?;
    rest.extend_from_slice(&intervals[..place])?;
    push_interval(&mut rest, low, value - 1)?;
    push_interval(&mut rest, value + 1, high)?;
    rest.extend_from_slice(&intervals[place + 1..])?;
    Ok(rest)
}
