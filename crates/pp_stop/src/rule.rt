//! The rule of the stop word, and the four kinds of step that keep it.
ghost use Rattle.std.specs.Prelude.{true, false};
ghost use Rattle.pp_stop.specs.Views.{blank, IsRaised, Loaded, Raised};

use crate::view::View;
use atomic_table::{Play, Split, TableRule};

pub struct Rule;

impl TableRule<(), View, ()> for Rule {
    ghost holds = { λ _ s. IsRaised s.words s.views };

    ghost first = { λ _. blank };
}

/// A load.
pub(crate) struct Look;

impl Play<(), View> for Look {
    ghost then = { Loaded };
}

/// The settled bit is raised.
pub(crate) struct RaiseSettled;

impl Play<(), View> for RaiseSettled {
    ghost then = { λ _ v _ w. Raised true false v w };
}

/// The dry bit is raised.
pub(crate) struct RaiseDry;

impl Play<(), View> for RaiseDry {
    ghost then = { λ _ v _ w. Raised false true v w };
}

/// A new seat, which has seen nothing.
pub(crate) struct Cut;

impl Split<View> for Cut {
    ghost left = { λ v. v };

    ghost right = { λ _. blank };
}
