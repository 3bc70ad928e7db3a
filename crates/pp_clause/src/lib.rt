//! Clauses by predicate and place, with an index by first argument, in the form that a search walks.
#![tactic(auto)]

mod candidates;
mod clauses;
mod code;
mod first;
mod fresh;
mod goal_at;
mod group;
mod index;
mod laws;

pub use candidates::Candidates;
pub use clauses::Clauses;
pub use first::First;
pub use goal_at::{GoalAt, Kind};
pub use laws::places_left_out_are_dead;
