//! The search of one annotated goal, cut into works that many workers search.
#![tactic(auto)]

mod explorer;
mod gathered;
mod lattice;
mod search;
mod space;
mod turn;

pub use gathered::Gathered;
pub use search::Search;
