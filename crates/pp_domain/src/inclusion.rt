//! Whether intervals lie in other intervals.
ghost use Rattle.std.specs.Prelude.{◌↔◌, ℤ, IsTrue};
ghost use Rattle.pp_domain.specs.Intervals.{IsDomain, Lies};

// Whether all integers of `a` lie in `b`. An interval lies in one of `b`, since those are not adjacent.
pub fn all_lie(a: &[(i64, i64)], b: &[(i64, i64)]) -> bool
    requires a { IsDomain a.now }
    requires b { IsDomain b.now }
    ensures { IsTrue result ↔ ((v : ℤ) → Lies a.now v → Lies b.now v) }
{
    let mut i = 0;
    let mut j = 0;
    while i < a.len() {
        if j == b.len() {
            return false;
        }
        if b[j].1 < a[i].1 {
            j += 1;
        } else if a[i].0 < b[j].0 {
            return false;
        } else {
            i += 1;
        }
    }
    true
}
