//! Tests of domains, terms, rows, covering and joins, by their public calls.
#![tactic(auto)]

#[cfg(test)]
mod tests;
