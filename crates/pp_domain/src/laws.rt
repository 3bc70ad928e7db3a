//! What a domain's list says of its set, as calls whose contracts are the laws.
ghost use Rattle.std.specs.Prelude.{◌≡◌, ℕ, ℤ, List, [], ◌∷◌, Some, ◌↔◌, IsTrue, length, slice_get};
ghost use Rattle.std.specs.FinSet as set;
ghost use Rattle.std.specs.Ordering.{int_cmp};
ghost use Rattle.pp_domain.specs.Equality.{same_intervals};
ghost use Rattle.pp_domain.specs.Intervals.{IsDomain, Lies, integers};
ghost use Rattle.pp_domain.specs.Sets.{set_of, IsNth};

/// An integer is a member exactly where it lies in an interval.
pub fn members_lie()
    ensures { (ps : List (ℤ × ℤ)) (v : ℤ) → IsDomain ps → IsTrue (set.contains (set_of ps) v) ↔ Lies ps v }
{}

/// Equal sets have equal lists.
pub fn sets_tell_lists()
    ensures { (ps qs : List (ℤ × ℤ)) → IsDomain ps → IsDomain qs → set_of ps ≡ set_of qs → ps ≡ qs }
{}

/// A domain's set isn't empty.
pub fn never_empty()
    ensures { (ps : List (ℤ × ℤ)) → IsDomain ps → set_of ps ≡ set.empty → ⊥ }
{}

/// The set has as many members as the intervals have integers.
pub fn sizes_agree()
    ensures { (ps : List (ℤ × ℤ)) → IsDomain ps → set.len (set_of ps) ≡ length (integers ps) }
{}

/// The member with so many smaller ones is that at this place of the integers.
pub fn places_agree()
    ensures { (ps : List (ℤ × ℤ)) (place : ℕ) (v : ℤ) → IsDomain ps → IsNth (set_of ps) place v ↔ (slice_get (integers ps) place ≡ Some v) }
{}

/// The interval of one integer has that one alone.
pub fn one_value_alone()
    ensures { (v : ℤ) → set_of ((v, v) ∷ []) ≡ set.from_list (v ∷ []) }
{}

/// `==` of two domains is true exactly where their lists are equal.
pub fn equality_tells()
    ensures { (ps qs : List (ℤ × ℤ)) → IsTrue (same_intervals ps qs) ↔ (ps ≡ qs) }
{}
