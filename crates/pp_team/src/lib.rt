//! A team of workers that searches one task.
#![tactic(auto)]

mod begin;
mod hand;
mod job;
mod open;
mod peeks;
mod recruit;
mod search;
mod threads;

pub use search::search_with;
