//! A lock by tickets round a value with a log. What a seat has seen of the log is a beginning of what there is.
#![tactic(auto)]

mod ends;
mod kept;
mod open;
mod rule;
mod seat;
mod sent;
mod turns;
mod view;

pub use kept::Kept;
pub use open::Refused;
pub use seat::{PlainSeat, Seat, Turn};
