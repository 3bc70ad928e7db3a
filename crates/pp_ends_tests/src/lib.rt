//! Tests of sources and sinks, and of the top call over ends that fail, by their public calls.
#![tactic(auto)]

#[cfg(test)]
mod tests;
