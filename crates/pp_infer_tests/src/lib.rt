//! Tests of one annotated goal, by its text.
#![tactic(auto)]

#[cfg(test)]
mod tests;
