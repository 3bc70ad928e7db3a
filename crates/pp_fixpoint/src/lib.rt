//! What a run of goals comes to: where it ends the store is a fixpoint, and so many turns are enough. Laws over the
//! definitions of runs.
//!
//! The crate has no code. Its functions' contracts are the laws.
#![tactic(auto)]

mod examples;
mod laws;

pub use examples::worked_turns_are_enough;
pub use laws::{run_ends_at_fixpoint, turns_are_enough};
