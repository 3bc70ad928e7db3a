//! Workers of a parallel search: each takes tasks, searches them under what it saw, reports, and offers what is left.
#![tactic(auto)]

mod budget;
mod desk;
mod explorer;
mod found;
mod gate;
mod offer;
mod report;
mod search;
mod take;
mod turned;
mod turns;
mod working;

pub use desk::Desk;
pub use explorer::Explorer;
pub use found::{Found, FoundOf};
pub use gate::{Gate, OpenGate, Point};
pub use turned::Turned;
pub use turns::turn;
pub use working::work;
