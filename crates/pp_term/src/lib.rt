//! Names, predicates, clauses and queries: the plain values of a program, with the terms and rows of `pp_row`.
#![tactic(auto)]

mod clause;
mod lists;
mod names;
mod pred;
mod query;

pub use clause::{Clause, Goal};
pub use lists::{Goals, Items, Numbers};
pub use names::Names;
pub use pp_row::{Cell, Given, Row, Term, Terms, end_of, same_terms};
pub use pred::{Mode, Pred, Relation, Shape};
pub use query::{Item, Query};
