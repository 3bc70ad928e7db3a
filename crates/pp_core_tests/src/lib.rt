//! Tests of `pp_space`, `pp_core`, `pp_path` and `pp_find` by their public calls.
#![tactic(auto)]

#[cfg(test)]
mod tests;
