//! Doing what is done with a goal.
ghost use Rattle.std.specs.Prelude.{◌≡◌, IfOk, option_copied};
ghost use Rattle.pp_algebra.specs.Terms.{count};
ghost use Rattle.pp_row.specs.Reading.{forest};
ghost use Rattle.pp_term.specs.Meanings.{members_by};
ghost use Rattle.pp_unify.specs.States.{present, IsLonger};
ghost use Rattle.pp_unify.specs.Forests.{AreDecided};
ghost use Rattle.pp_goal.specs.Arguments.{IsLent, terms_of};
ghost use Rattle.pp_goal.specs.Acts.{items, IsReady};
ghost use Rattle.pp_sld.specs.Selection.{both_sides, first_in};

use crate::Act;
use crate::arguments::place_of;
use pp_clause::{GoalAt, Kind};
use pp_domain::Domain;
use pp_row::term_from;
use pp_unify::Bindings;
use std::alloc::AllocError;

/// Makes the two arguments equal, and answers false where nothing does.
fn equate(bindings: &mut Bindings, goal: &GoalAt<'_>, first: u32) -> Result<bool, AllocError>
    requires lent { IsLent (present bindings.old) goal.now first }
    requires two { count (forest goal.now.arguments.now) ≡ 2 }
    ensures decided { IfOk result (λ b.
        AreDecided (present bindings.old) (both_sides (terms_of goal.now first)) b (present bindings.new)) }
    ensures kept { IsLonger bindings.old bindings.new }
{
    let left = term_from(goal.arguments, 0);
    let right = &goal.arguments[left.len()..];
    bindings.unify_spans(left, first, right, first)
}

/// Makes the argument be in a domain, where `None` is the empty set, and answers false where nothing does.
fn narrow(
    bindings: &mut Bindings,
    goal: &GoalAt<'_>,
    first: u32,
    domain: Option<&Domain>,
) -> Result<bool, AllocError>
    requires lent { IsLent (present bindings.old) goal.now first }
    requires one { count (forest goal.now.arguments.now) ≡ 1 }
    ensures decided { IfOk result (λ b.
        AreDecided (present bindings.old) (first_in (members_by (option_copied domain.entry)) (terms_of goal.now first))
        b (present bindings.new)) }
    ensures kept { IsLonger bindings.old bindings.new }
{
    match domain {
        Some(domain) => bindings.narrow_at(goal.arguments, 0, first, domain),
        None => Ok(false),
    }
}

/// Does what `act_on` said: an equation, a membership or a value is solved on the bindings, and false answered where
/// nothing solves it. The other acts change nothing. After false or want of memory go back to a mark.
pub fn perform(
    bindings: &mut Bindings,
    goal: &GoalAt<'_>,
    first: u32,
    act: Act,
) -> Result<bool, AllocError>
    requires lent { IsLent (present bindings.old) goal.now first }
    requires ready { IsReady (count (forest goal.now.arguments.now)) act }
    ensures decided { IfOk result (λ b.
        AreDecided (present bindings.old) (items goal.now.kind (terms_of goal.now first) act) b
        (present bindings.new)) }
    ensures kept { IsLonger bindings.old bindings.new }
{
    match act {
        Act::Equate => equate(bindings, goal, first),
        Act::Narrow => match goal.kind {
            Kind::Member(domain) => narrow(bindings, goal, first, domain),
            _ => Ok(true),
        },
        Act::Bind(place, value) => {
            let at = place_of(goal.arguments, place);
            bindings.equate_at(goal.arguments, at, first, value)
        }
        Act::Wait | Act::Fail | Act::Hold | Act::Split | Act::Call(_) => Ok(true),
    }
}
