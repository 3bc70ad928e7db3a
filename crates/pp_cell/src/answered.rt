//! What a worker is told of its report.
use pp_core::Accepted;
use pp_space::Space;

/// What the core answered, and the value of the search after the report.
#[derive(Drop)]
pub struct Answered<S: Space> {
    pub accepted: Accepted,
    pub seen: S::Value,
}
