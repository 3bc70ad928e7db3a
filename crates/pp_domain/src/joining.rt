//! The integers that lie in one of two lists of intervals.
ghost use Rattle.std.specs.Prelude.{◌≡◌, ◌++◌, ◌∷◌, [], ◌+ℤ◌, ◌≤ℤ◌, ◌<ℤ◌, ◌<◌, ◌≤◌, ◌⊎◌, ◌↔◌, ℤ, pos, length, true, false, IfOk};
ghost use Rattle.std.specs.Int.{int_max};
ghost use Rattle.pp_domain.specs.Intervals.{IsDomain, Lies};
ghost use Rattle.pp_algebra.specs.Members.{IsInteger};
ghost use Rattle.pp_domain.specs.Merging.{IsNext};

use std::alloc::{AllocError, Global};

// Takes the intervals of both by where they begin, and holds the last one back as long as it may grow. It begins
// with the first integer of both, which its own interval then takes in.
pub fn joined(
    alloc: Global,
    a: &[(i64, i64)],
    b: &[(i64, i64)],
) -> Result<Vec<(i64, i64)>, AllocError>
    requires a { IsDomain a.now }
    requires b { IsDomain b.now }
    ensures domain { IfOk result (λ either. IsDomain either.items) }
    ensures lies { IfOk result (λ either. (v : ℤ) → Lies either.items v ↔ (Lies a.now v ⊎ Lies b.now v)) }
{
    let mut done = Vec::with_capacity(alloc, a.len() + b.len())?;
    let first = a[0].0.min(b[0].0);
    let mut last = (first, first);
    let mut i = 0;
    let mut j = 0;
    while i < a.len() || j < b.len() {
        if is_next(a, i, b, j) {
            last = absorb(&mut done, last, a[i])?;
            i += 1;
        } else {
            last = absorb(&mut done, last, b[j])?;
            j += 1;
        }
    }
    done.push(last)?;
    Ok(done)
}

// Whether the next interval by where it begins is that of `a` at `i`, and not that of `b` at `j`.
fn is_next(a: &[(i64, i64)], i: usize, b: &[(i64, i64)], j: usize) -> bool
    requires some { (i < length a.now) ⊎ (j < length b.now) }
    requires a { IsDomain a.now }
    requires b { IsDomain b.now }
    ensures left { result ≡ true → IsNext a.now i b.now j }
    ensures right { result ≡ false → IsNext b.now j a.now i }
{
    j >= b.len() || (i < a.len() && a[i].0 <= b[j].0)
}

// The last interval after `next`: `last` grown by it where they touch, else `next`, and `last` is done.
fn absorb(
    done: &mut Vec<(i64, i64)>,
    last: (i64, i64),
    next: (i64, i64),
) -> Result<(i64, i64), AllocError>
    requires { IsInteger last.1 }
    ensures touching { next.0 ≤ℤ (last.1 +ℤ pos 1) → IfOk result (λ p. (p ≡ (last.0, int_max last.1 next.1)) × (done.new.items ≡ done.old.items)) }
    ensures apart { (last.1 +ℤ pos 1) <ℤ next.0 → IfOk result (λ p. (p ≡ next) × (done.new.items ≡ done.old.items ++ last ∷ [])) }
{
    if next.0 <= last.1 + 1 {
        return Ok((last.0, last.1.max(next.1)));
    }
    done.push(last)?;
    Ok(next)
}
