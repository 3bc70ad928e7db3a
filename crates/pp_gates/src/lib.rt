//! Gates that hold a worker for a while, by which a test shows that others work beside it.
#![tactic(auto)]

mod holding;
mod meeting;

pub use holding::Holding;
pub use meeting::Meeting;
