//! Tests of the search machine, step by step, and of its walker.
#![tactic(auto)]

#[cfg(test)]
mod tests;
