//! Watchers of a run: each is told of every change, in the order of the turns, until it leaves.
#![tactic(auto)]

mod change;
mod first_few;
mod keep;
mod lines;
mod note;
mod recorder;
mod watcher;

pub use change::Change;
pub use first_few::FirstFew;
pub use keep::Keep;
pub use note::{note_all, tell_all};
pub use recorder::Recorder;
pub use watcher::Watcher;
