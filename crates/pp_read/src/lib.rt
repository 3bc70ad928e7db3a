//! Reads a text: the program that it writes, or its first fault, or the first limit that it passes.
#![tactic(auto)]

mod fault;
mod limits;
mod program;
mod progress;
mod sentence;
mod text;

pub use fault::ReadFault;
pub use pp_language::Which;
pub use program::{ClauseList, Program};
pub use text::read;
