//! A list of any values, as a field of the plain types.
#![tactic(auto)]

mod copied;
mod list;

pub use copied::Copied;
pub use list::ListOf;
