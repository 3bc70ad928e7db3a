//! The rule of the lock, and the six kinds of step that keep it.
ghost use Rattle.std.specs.Prelude.{◌≡◌};
ghost use Rattle.pp_turn.specs.Turns.{Held};
ghost use Rattle.pp_turn.specs.Views.{opened, lower, upper, joined, spent};
ghost use Rattle.pp_turn.specs.Steps.{drawn, looked, passed, compared};

use crate::kept::Kept;
use crate::view::{Key, View};
use atomic_table::{Join, Play, Split, TableRule};

pub struct Rule;

impl<T: Kept> TableRule<Option<T>, View<T::Entry, T::Base>, Key<T>> for Rule {
    ghost holds = { λ key. Held T.log T.bearer T.base key.seats };

    ghost first = { λ key. opened (T.base key.value.value) key.seats };
}

/// A ticket is drawn.
pub(crate) struct Draw;

impl<S, L, B> Play<S, View<L, B>> for Draw {
    ghost then = { drawn };
}

/// A look at which ticket is served.
pub(crate) struct Look;

impl<T: Kept> Play<Option<T>, View<T::Entry, T::Base>> for Look {
    ghost then = { looked T.log T.bearer T.base };
}

/// The next ticket is served.
pub(crate) struct Pass;

impl<T: Kept> Play<Option<T>, View<T::Entry, T::Base>> for Pass {
    ghost then = { passed T.log };
}

/// Two seats were joined, and learn how their logs stand to each other.
pub(crate) struct Compare;

impl<S, L, B> Play<S, View<L, B>> for Compare {
    ghost then = { compared };
}

/// A seat is split, after its first number.
pub(crate) struct Cut;

impl<L, B> Split<View<L, B>> for Cut {
    ghost left = { lower };

    ghost right = { upper };
}

/// Two seats become one.
pub(crate) struct Meet;

impl<L, B> Join<View<L, B>> for Meet {
    ghost both = { joined };

    ghost spent = { spent };
}
