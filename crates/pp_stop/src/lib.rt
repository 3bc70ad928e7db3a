//! The stop word of a search: two bits that are raised once and seen by all, one for a settled search and one for a
//! search that found no memory.
#![tactic(auto)]

mod rule;
mod seat;
mod sent;
mod steps;
mod up;
mod view;

pub use seat::{Stop, StopSeat};
pub use up::Up;
