//! Lists of terms.
use crate::Term;
use pp_list::{Copied, ListOf};
use std::alloc::AllocError;

/// Some terms in order, as the arguments of a goal or the head of a clause.
pub type Terms = ListOf<Term>;

impl Copied for Term {
    fn copied(&self) -> Result<Term, AllocError> {
        self.copy()
    }
}
