//! The values of a goal that splits.
ghost use Rattle.std.specs.Prelude.{◌≡◌, ◌<◌, Some, length, slice_get};
ghost use Rattle.pp_algebra.specs.Members.{IsInteger};
ghost use Rattle.pp_algebra.specs.Terms.{count};
ghost use Rattle.pp_row.specs.Reading.{forest};
ghost use Rattle.pp_sld.specs.Ways.{values_of};
ghost use Rattle.pp_unify.specs.States.{present};
ghost use Rattle.pp_goal.specs.Arguments.{IsLent, terms_in};

use pp_clause::GoalAt;
use pp_unify::Bindings;

/// How many values the argument of a goal that splits may be.
pub fn split_count(bindings: &Bindings, goal: &GoalAt<'_>, first: u32) -> u64
    requires lent { IsLent (present bindings.now) goal.now first }
    requires one { count (forest goal.now.arguments.now) ≡ 1 }
    ensures { result ≡ length (values_of (present bindings.now).domains
        (terms_in (present bindings.now) goal.now first)) }
{
    match bindings.domain_at(goal.arguments, 0, first) {
        Some(domain) => {
            let _whole = domain.intervals();
            domain.size()
        }
        None => 0,
    }
}

/// The value at a place, in ascending order from 0.
pub fn split_value(bindings: &Bindings, goal: &GoalAt<'_>, first: u32, place: u64) -> i64
    requires lent { IsLent (present bindings.now) goal.now first }
    requires one { count (forest goal.now.arguments.now) ≡ 1 }
    requires place { place < length
        (values_of (present bindings.now).domains (terms_in (present bindings.now) goal.now first)) }
    ensures value { slice_get (values_of (present bindings.now).domains
        (terms_in (present bindings.now) goal.now first)) place ≡ Some result }
    ensures integer { IsInteger result }
{
    let Some(domain) = bindings.domain_at(goal.arguments, 0, first) else {
        unreachable!()
    };
    let _whole = domain.intervals();
    let Some(value) = domain.nth(place) else {
        unreachable!()
    };
    value
}
