//! Deques of items: a hand offers items and takes them, and peeks steal them from other threads, first in, first out.
#![tactic(auto)]

mod hand;
mod left;
mod offered;
mod owner;
mod peek;
mod rule;
mod sent;
mod stolen;
mod tally;

pub use hand::{Hand, Left, Peek};
pub use offered::Offered;
pub use owner::hands;
pub use stolen::Stolen;
