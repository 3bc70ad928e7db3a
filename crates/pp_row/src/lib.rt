//! Cells, terms and rows: what unifying, generalising and comparing work on.
#![tactic(auto)]

mod cell;
mod domains;
mod given;
mod row;
mod span;
mod substitution;
mod term;
mod terms;

pub use cell::Cell;
pub use domains::{copy_at, copy_domain};
pub use given::Given;
pub use row::{Row, same_terms};
pub use span::{end_of, term_from};
pub use term::Term;
pub use terms::Terms;
