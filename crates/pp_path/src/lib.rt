//! Works: which part of a search tree is still to be searched.
//!
//! A work is a path of choices with the siblings that are left at each level. Going down, on to the next sibling and
//! splitting lose no subtree and double none.
#![tactic(auto)]

mod levels;
mod work;

pub use levels::Level;
pub use work::Work;
