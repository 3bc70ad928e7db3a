//! The meaning of a search: programs, configurations, search trees, leaves, findings and verdicts, with their laws.
//!
//! The crate is read by contracts alone: its functions have no code, and each one's contract is a law.
#![tactic(auto)]

mod examples;
mod findings;
mod laws;
mod works;

pub use examples::{worked_decisions, worked_searches, worked_verdicts, worked_works};
pub use findings::{
    covered_rows_add_nothing, findings_are_a_lattice, findings_fit, findings_give_the_verdict,
};
pub use laws::{
    call_covers_what_is_found, deepening_keeps_verdicts, search_is_total, search_is_unique,
    verdict_is_unique, walks_give_the_verdict,
};
pub use works::{
    paths_reach_or_miss, reports_are_fit, searches_stand_at_paths, walks_keep_every_leaf,
    works_are_ordered, works_keep_every_leaf,
};
