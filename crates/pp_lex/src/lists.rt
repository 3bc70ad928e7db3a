//! Tokens and sentences in lists.
ghost use Rattle.std.specs.Prelude.{◌≡◌, IfOk};

use pp_language::Token;
use pp_list::{Copied, ListOf};
use std::alloc::AllocError;

/// Tokens in their order.
pub type Tokens = ListOf<Token>;

/// Sentences in their order.
pub type SentenceList = ListOf<Sentence>;

/// The tokens of a sentence, without the point that ends it.
#[derive(Debug, Drop)]
pub struct Sentence {
    pub tokens: Tokens,
}

impl Sentence {
    /// A copy.
    pub fn copy(&self) -> Result<Sentence, AllocError>
        ensures { IfOk result (λ sentence. sentence ≡ self.now) }
    {
        Ok(Sentence {
            tokens: self.tokens.copy()?,
        })
    }
}

impl Copied for Sentence {
    fn copied(&self) -> Result<Sentence, AllocError> {
        self.copy()
    }
}

/// What follows the last sentence.
#[derive(Clone, Copy, Debug, PartialEq, Eq)]
pub enum Tail {
    /// White space and comments alone.
    Clean,
    /// Tokens that no point ends.
    Cut,
    /// A place where no token begins.
    Bad,
}

/// The sentences of a text, and what follows them.
#[derive(Debug, Drop)]
pub struct Sentences {
    pub list: SentenceList,
    pub tail: Tail,
}

impl Sentences {
    /// A copy.
    pub fn copy(&self) -> Result<Sentences, AllocError>
        ensures { IfOk result (λ sentences. sentences ≡ self.now) }
    {
        Ok(Sentences {
            list: self.list.copy()?,
            tail: self.tail,
        })
    }
}
