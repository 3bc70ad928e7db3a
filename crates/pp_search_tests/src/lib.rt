//! Tests of bindings by their public calls.
#![tactic(auto)]

#[cfg(test)]
mod tests;
