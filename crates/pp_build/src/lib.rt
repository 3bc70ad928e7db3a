//! The clauses and queries that a sentence's parts write.
#![tactic(auto)]

mod clauses;
mod goals;
mod renumber;
mod terms;

pub use clauses::{clause, query};
pub use renumber::renumbered;
