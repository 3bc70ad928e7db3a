//! The meaning of terms, rows, covering, least generalisation and solving, with their laws.
//!
//! The crate is read by contracts alone: its functions have no code, and each one's contract is a law.
#![tactic(auto)]

mod examples;
mod laws;

pub use examples::{worked_examples, worked_solving};
pub use laws::{
    covering_is_an_order, generalisation_has_no_order, generalisation_is_least,
    joins_give_the_least_generalisation, members_are_listed, numbering_forgets_the_numbers,
    same_row_is_equality, solving_covers_all_that_meets, solving_ends, solving_goes_in_stages,
    solving_has_no_order, solving_is_unique, solving_restricts,
};
