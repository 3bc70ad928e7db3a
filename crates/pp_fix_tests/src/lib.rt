//! Tests of the wake list, the store and the run to the fixpoint, by their public calls.
#![tactic(auto)]

#[cfg(test)]
mod tests;
