//! Tests of what threads share: the lock by turns, the deques and the stop word.
#![tactic(auto)]

#[cfg(test)]
mod deals;
#[cfg(test)]
mod one_value;
#[cfg(test)]
mod player;
#[cfg(test)]
mod stops;
#[cfg(test)]
mod turns;
