//! Finite domains: finite, non-empty sets of integers, kept as lists of intervals.
#![tactic(auto)]

mod counts;
mod domain;
mod inclusion;
mod joining;
pub mod laws;
mod places;
mod sharing;

pub use domain::Domain;
