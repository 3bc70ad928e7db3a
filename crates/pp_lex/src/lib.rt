//! Cuts a text into tokens, and collects the tokens into sentences.
#![tactic(auto)]

mod front;
mod gap;
mod lists;
mod scan;

pub use lists::{Sentence, SentenceList, Sentences, Tail, Tokens};
pub use pp_language::{Kind, Token};
pub use scan::sentences;
