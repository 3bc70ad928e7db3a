//! The rule of a deque, and its steps.
ghost use Rattle.std.specs.Prelude.{true, false, []};
ghost use Rattle.pp_deal.specs.Dealt.{Dealt, tally, idle};
ghost use Rattle.pp_deal.specs.Steps.{offers, takes, takes_left, gives, given, takes_in, HeldNone, LeavesNone, Accounts};

use crate::tally::Tally;
use crossbeam_deque::protocol::{Join, Lesson, Outcome, Protocol, Split};

pub struct Dealing;

impl<T> Protocol<T, Tally<T>> for Dealing {
    ghost holds = { Dealt };

    ghost first = { tally true false 0 [] [] };

    ghost guest = { idle };
}

/// An item is put behind the others.
pub(crate) struct Offers;

impl<T> Outcome<T, Tally<T>> for Offers {
    ghost then = { offers };
}

/// The first item is taken or stolen.
pub(crate) struct Takes;

impl<T> Outcome<T, Tally<T>> for Takes {
    ghost then = { takes };

    ghost empty = { HeldNone };
}

/// The first item is taken, where nobody else may.
pub(crate) struct TakesLeft;

impl<T> Outcome<T, Tally<T>> for TakesLeft {
    ghost then = { takes_left };

    ghost empty = { LeavesNone };
}

/// A peek is given, and comes back.
pub(crate) struct Gives;

impl<T> Split<Tally<T>> for Gives {
    ghost left = { gives };

    ghost right = { given };
}

impl<T> Join<Tally<T>> for Gives {
    ghost both = { takes_in };

    ghost spent = { idle };
}

/// Where all peeks are back, it is known what is left.
pub(crate) struct Total;

impl<T> Lesson<T, Tally<T>> for Total {
    ghost fact = { Accounts };
}
