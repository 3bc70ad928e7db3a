//! One goal of a body under bindings: what is done with it, and doing it.
#![tactic(auto)]

mod acts;
mod arguments;
mod matching;
mod solving;
mod split;

pub use acts::{Act, act_on};
pub use arguments::first_argument;
pub use matching::may_match;
pub use solving::perform;
pub use split::{split_count, split_value};
