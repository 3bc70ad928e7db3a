//! Bindings of variables to terms: unification with occurs check and finite domains, undone by a trail.
#![tactic(auto)]

mod bindings;
mod cover;
mod head;
mod join;
mod laws;
mod pair;
mod still;
mod terms;
mod unify;
mod writing;

pub use bindings::{Bindings, Mark};
pub use laws::items_have_no_order;
