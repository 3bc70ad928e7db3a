//! A machine that walks the search tree of a goal.
#![tactic(auto)]

mod choose;
mod engine;
mod history;
mod machine;
mod place;
mod root;
mod select;
mod solve;
mod start;
mod step;
mod suspended;

pub use machine::Machine;
