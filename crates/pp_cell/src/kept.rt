//! A search with its journal as what is handed from turn to turn.
ghost use Rattle.std.specs.Prelude.{◌≡◌};

use crate::book::Book;
use pp_core::Entry;
use pp_space::Space;
use pp_turn::Kept;

/// What a search began with. No value of it is made.
pub struct Origin<S: Space> {
    pub space: S,
    pub root: S::Task,
}

impl<'a, S: Space> Kept for Book<'a, S> {
    type Entry = Entry<S>;

    type Base = Origin<S>;

    ghost log = { λ book. book.entries.items };

    ghost bearer = { λ e. e.seat };

    ghost base = { λ book. record { space = book.core.space.now; root = book.core.root } };
}
