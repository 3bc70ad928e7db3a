//! The run of a query's goals to the fixpoint.
#![tactic(auto)]

mod commit;
mod fix;
mod search;
mod unfinished;

pub use fix::{End, Fixed, fix_alone, fix_with};
