//! The top call of the program: words, a text from a source, and the answer to a sink.
#![tactic(auto)]

mod answer;
mod begin;
mod command;
mod finish;
mod lines;
mod reply;
mod run;
mod summary;
mod words;

pub use command::{alone, propia};
pub use pp_language::Status;
