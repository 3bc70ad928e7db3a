//! The instance order on rows: whether one row is more general than another.
#![tactic(auto)]

mod reach;
mod rows;
mod walk;

pub use reach::domain_of;
pub use rows::covers;
