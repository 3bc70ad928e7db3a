//! Lists of goals, items and numbers, as fields of clauses and queries; and copies of what stands in lists.
use crate::{Clause, Goal, Item};
use pp_list::{Copied, ListOf};
use std::alloc::AllocError;

/// The goals of a body, in order.
pub type Goals = ListOf<Goal>;

/// The items of a query, in order.
pub type Items = ListOf<Item>;

/// Numbers in order.
pub type Numbers = ListOf<u32>;

impl Copied for Goal {
    fn copied(&self) -> Result<Goal, AllocError> {
        self.copy()
    }
}

impl Copied for Item {
    fn copied(&self) -> Result<Item, AllocError> {
        self.copy()
    }
}

impl Copied for Clause {
    fn copied(&self) -> Result<Clause, AllocError> {
        self.copy()
    }
}
