//! The meaning of a text: its tokens, what it writes, and what is printed of a run.
//!
//! The crate is read by contracts: beside a few plain types its functions have no code, and each one's contract is a law.
#![tactic(auto)]

mod command;
mod examples;
mod laws;
mod limits;
mod spelling;
mod status;
mod token;
mod which;

pub use command::{Command, CommandKind, Settings};
pub use examples::{worked_commands, worked_examples, worked_generator, worked_reading};
pub use laws::{
    command_is_unique, first_fault_is_unique, program_is_unique, statement_is_unique,
    tokenisation_is_unique,
};
pub use limits::{
    AHEAD_LIMIT, ARITY_LIMIT, CLAUSE_LIMIT, CLAUSE_VARIABLE_LIMIT, DEFAULT_AHEAD, DEFAULT_DEPTH,
    DEFAULT_TURNS, DEFAULT_WORKERS, DEPTH_LIMIT, GOAL_LIMIT, MAKE_LIMIT, QUERY_VARIABLE_LIMIT,
    TEXT_LIMIT, TURN_LIMIT, WORKER_LIMIT,
};
pub use spelling::{is_digit, is_lower, is_same, is_word, number_of};
pub use status::Status;
pub use token::{Kind, Token};
pub use which::Which;
