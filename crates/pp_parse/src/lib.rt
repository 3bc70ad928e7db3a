//! Parses a sentence: from its tokens to the statement that it is, by the places of its terms.
#![tactic(auto)]

mod items;
mod lookahead;
mod names;
mod parts;
mod reading;
mod sentence;
mod sets;
mod statement;
mod texts;
mod tokens;
mod variables;

pub use items::Entry;
pub use names::intern_names;
pub use parts::{Part, Phrase};
pub use sentence::{Parsed, parse};
pub use statement::Layout;
pub use variables::Variables;
