//! The words of the command line.
#![tactic(auto)]

mod checks;
mod number;
mod setting;
mod words;

pub use words::{WordsError, read_words};
