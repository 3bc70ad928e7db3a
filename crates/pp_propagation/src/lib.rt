//! The meaning of a run: the store, faces, turns, the run, watchers and the reply, with their laws.
//!
//! The crate is read by contracts alone: its functions have no code, and each one's contract is a law.
#![tactic(auto)]

mod examples;
mod laws;

pub use examples::{worked_histories, worked_turns};
pub use laws::{
    faces_and_stores_are_rows, reply_is_unique, run_is_made_of_turns, run_is_unique,
    watchers_note_in_turn,
};
