//! Tests of the table of clauses and of the built-ins, by their public calls.
#![tactic(auto)]

#[cfg(test)]
mod tests;
