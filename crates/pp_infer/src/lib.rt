//! One annotated goal: its verdict, found by a walk through its search, or by many workers.
#![tactic(auto)]

mod alone;
mod verdict;
mod workers;

pub use alone::infer_alone;
pub use pp_search::Search;
pub use verdict::infer;
pub use workers::infer_with;
