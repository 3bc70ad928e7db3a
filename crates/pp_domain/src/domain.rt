//! A finite domain and its operations.
ghost use Rattle.std.specs.Prelude.{◌≡◌, ℕ, ℤ, ◌∷◌, [], ◌<ℤ◌, ◌≤◌, ◌↔◌, IsTrue, length, IfOk, IfSome, IsNone, MatchOption, slice_get};
ghost use Rattle.std.specs.FinSet as set;
ghost use Rattle.std.specs.Ordering.{int_cmp};
ghost use Rattle.std.specs.Cmp.{partial_equiv_from_equiv};
ghost use Rattle.pp_domain.specs.Equality.{same_intervals, same_intervals_equiv};
ghost use Rattle.pp_domain.specs.Intervals.{IsDomain, IsApartInside, integers};
ghost use Rattle.pp_algebra.specs.Members.{IsInteger};
ghost use Rattle.pp_domain.specs.Sets.{set_of, IsDomainOf, IsDomainOrNone, IsNth};

use crate::counts::{nth_of, total};
use crate::inclusion::all_lie;
use crate::joining::joined;
use crate::places::{lies_in, without_value};
use crate::sharing::shared;
use std::alloc::{AllocError, Global};
use std::marker::Model;

/// A finite set of at least one integer, kept as its intervals: ascending, disjoint, not adjacent.
///
/// No call walks single integers: each costs what its intervals cost, whatever they hold.
#[derive(Debug, Drop)]
pub struct Domain {
    intervals: Vec<(i64, i64)>,
}

impl Model for Domain {
    ghost use Rattle.std.specs.Prelude.{ℤ, List};
    ghost use Rattle.std.specs.Coded.{coded_list, coded×, coded_ℤ};
    ghost use Rattle.pp_domain.specs.Intervals.{IsDomain};

    ghost Value = { List (ℤ × ℤ) };

    ghost coded = { coded_list (coded× coded_ℤ coded_ℤ) };

    ghost view = { λ d. d.intervals.items };

    ghost invariant = { λ d. IsDomain d.intervals.items };
}

impl PartialEq for Domain {
    ghost eq = { same_intervals };

    ghost laws = { partial_equiv_from_equiv same_intervals_equiv };

    fn eq(&self, other: &Domain) -> bool {
        self.intervals.as_slice() == other.intervals.as_slice()
    }
}

impl Eq for Domain {
    ghost laws = { same_intervals_equiv };
}

impl Domain {
    /// The integers from `lo` to `hi`, or None where there are none.
    pub fn range(alloc: Global, lo: i64, hi: i64) -> Result<Option<Domain>, AllocError>
        requires lo { IsInteger lo }
        requires hi { IsInteger hi }
        ensures { IfOk result (λ r. MatchOption r (hi <ℤ lo) (λ d. d ≡ (lo, hi) ∷ [])) }
    {
        if hi < lo {
            return Ok(None);
        }
        let mut intervals = Vec::with_capacity(alloc, 1)?;
        intervals.push((lo, hi))?;
        Ok(Some(Domain { intervals }))
    }

    /// The intervals, ascending.
    pub fn intervals(&self) -> &[(i64, i64)]
        ensures same { result.now ≡ self.now }
        ensures domain { IsDomain self.now }
    {
        self.intervals.as_slice()
    }

    /// Whether `value` is a member, by binary search.
    pub fn has(&self, value: i64) -> bool
        ensures { result ≡ set.contains (set_of self.now) value }
    {
        lies_in(self.intervals.as_slice(), value)
    }

    /// How many members there are.
    pub fn size(&self) -> u64
        ensures { result ≡ set.len (set_of self.now) }
    {
        total(self.intervals.as_slice())
    }

    /// The member at `place` in ascending order, from 0.
    pub fn nth(&self, place: u64) -> Option<i64>
        ensures none { IsNone result ↔ (set.len (set_of self.now) ≤ place) }
        ensures member { IfSome result (IsNth (set_of self.now) place) }
        ensures listed { result ≡ slice_get (integers self.now) place }
    {
        nth_of(self.intervals.as_slice(), place)
    }

    /// Whether each member is one of `other`.
    pub fn inside(&self, other: &Domain) -> bool
        ensures { result ≡ set.is_subset (set_of self.now) (set_of other.now) }
    {
        all_lie(self.intervals.as_slice(), other.intervals.as_slice())
    }

    /// Whether the members are the same.
    pub fn same(&self, other: &Domain) -> bool
        ensures { IsTrue result ↔ (self.now ≡ other.now) }
    {
        self == other
    }

    /// The members of both, or None where there are none.
    pub fn meet(&self, other: &Domain) -> Result<Option<Domain>, AllocError>
        ensures { IfOk result (λ r. IsDomainOrNone r (set.intersection (set_of self.now) (set_of other.now))) }
    {
        let alloc = *self.intervals.allocator();
        let intervals = shared(alloc, self.intervals.as_slice(), other.intervals.as_slice())?;
        Ok(Domain::from_intervals(intervals))
    }

    /// The members of either.
    pub fn union(&self, other: &Domain) -> Result<Domain, AllocError>
        ensures { IfOk result (λ d. IsDomainOf d (set.union (set_of self.now) (set_of other.now))) }
    {
        let alloc = *self.intervals.allocator();
        Ok(Domain {
            intervals: joined(alloc, self.intervals.as_slice(), other.intervals.as_slice())?,
        })
    }

    /// The members but `value`, or None where there is no other.
    pub fn without(&self, value: i64) -> Result<Option<Domain>, AllocError>
        ensures { IfOk result (λ r. IsDomainOrNone r (set.remove (set_of self.now) value)) }
    {
        let alloc = *self.intervals.allocator();
        let intervals = without_value(alloc, self.intervals.as_slice(), value)?;
        Ok(Domain::from_intervals(intervals))
    }

    /// A domain with the same members.
    pub fn copy(&self) -> Result<Domain, AllocError>
        ensures { IfOk result (λ d. d ≡ self.now) }
    {
        let alloc = *self.intervals.allocator();
        Ok(Domain {
            intervals: Vec::from_slice(alloc, self.intervals.as_slice())?,
        })
    }

    // The domain of these intervals, or None where there are none.
    fn from_intervals(intervals: Vec<(i64, i64)>) -> Option<Domain>
        requires { IsApartInside intervals.items }
        ensures { MatchOption result (intervals.items ≡ []) (λ d. IsDomain d × (d ≡ intervals.items)) }
    {
        if intervals.is_empty() {
            None
        } else {
            Some(Domain { intervals })
        }
    }
}
