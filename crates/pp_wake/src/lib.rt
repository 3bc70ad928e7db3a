//! The wake list: the goals that wait for their turn.
#![tactic(auto)]

mod wake;

pub use wake::Wake;
