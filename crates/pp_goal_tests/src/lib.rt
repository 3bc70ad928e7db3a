//! Tests of `pp_goal` by its public calls.
#![tactic(auto)]

#[cfg(test)]
mod tests;
