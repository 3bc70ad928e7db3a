//! Tests of tokens, of programs that are read, of printed texts, and of words, by their public calls.
#![tactic(auto)]

#[cfg(test)]
mod tests;
