//! The store of a query: how it begins, a goal's face under it, and what applying a row to a goal changes.
#![tactic(auto)]

mod begin;
mod changed;
mod goals;
mod numbers;
mod occurrences;
mod pattern;
mod renewed;
mod rows;
mod store;
mod writing;

pub use goals::{Annotated, GoalIndex};
pub use store::Store;
