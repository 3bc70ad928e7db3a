//! The state of a search that is cut into tasks, and what a report does to it.
//!
//! Whatever the order in which pieces of work are reported, the value joined with the worths of the live tasks is
//! the worth of the root: nothing is lost, and nothing counts twice.
#![tactic(auto)]

mod accept;
mod accepted;
mod entry;
mod laws;
mod new;
mod report;
mod settle;
mod state;
mod tasks;

pub use accept::Replacement;
pub use accepted::Accepted;
pub use entry::{Act, Entry, EntryOf};
pub use laws::core_runs_keep_the_worth;
pub use report::{Report, ReportOf};
pub use state::Core;
pub use tasks::{Tasks, copy_tasks};
