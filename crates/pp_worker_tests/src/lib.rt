//! Tests of a search that workers share: the cell with its journal, a worker's turns, and teams of workers in threads.
#![tactic(auto)]

#[cfg(test)]
mod tests;
