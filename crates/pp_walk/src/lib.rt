//! A walk through the search of one goal, over any search machine, that stops as soon as what it gathered is settled.
#![tactic(auto)]

mod event;
mod gatherer;
mod leaf;
mod machine;
mod next;
mod stage;
mod steps;
mod walk;

pub use event::Event;
pub use gatherer::Gatherer;
pub use leaf::{gather_answer, gather_loose};
pub use machine::SearchMachine;
pub use next::Next;
pub use steps::Steps;
pub use walk::gather;
