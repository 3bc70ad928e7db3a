//! What two rows have in common: their least general generalisation.
#![tactic(auto)]

mod domains;
mod pair;
mod rows;
mod walk;

pub use rows::join;
