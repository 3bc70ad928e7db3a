//! A search that threads share, with its journal: each report and each look is one entry, and the entries replayed
//! give the state of the search.
#![tactic(auto)]

mod answered;
mod book;
mod cell;
mod journal;
mod kept;
mod look;
mod open;
mod report;
mod sent;

pub use answered::Answered;
pub use cell::{Cell, Pass};
pub use pp_core::{Accepted, Act, Entry, EntryOf, Report, ReportOf};
