//! What is known of the answers and loose ends of one goal, joined as they come in, and the verdict that it gives.
#![tactic(auto)]

mod bound;
mod collector;
mod finding;
mod findings;
mod known;
mod lattice;
mod leaves;
mod levels;
mod outcome;
mod parts;
mod verdict;

pub use collector::Collector;
pub use finding::{Finding, Sole};
pub use findings::Findings;
pub use verdict::Verdict;
