//! The search of one task of a search tree, for a budget of reductions, over any search machine.
//!
//! A worker of a parallel search takes a task, a [`pp_path::Work`], walks on from where its machine stands, gathers
//! the leaves and answers what is left as works.
#![tactic(auto)]

mod arrive;
mod laws;
mod replay;
mod stage;
mod task;
mod turn;
mod walker;

pub use laws::added_leaves_are_joined;
pub use task::{Explored, explore};
pub use walker::Walker;
