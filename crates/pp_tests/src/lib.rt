//! The built-ins on integers: comparisons, `plus`, `times` and `indomain`.
#![tactic(auto)]

mod built_in;
mod table;

pub use built_in::{Decision, Test};
pub use table::decide;
