//! What is printed of a term is read as the same term: a law between the definitions of printing and of reading.
//!
//! The crate has no code. Its functions' contracts are the law.
#![tactic(auto)]

mod laws;

pub use laws::{printed_terms_are_read_back, read_names_are_printed};
