//! The generated text: a chain of adders of one bit whose inputs are bits of pseudo-random numbers, and four different
//! values.
#![tactic(auto)]

mod adders;
mod text;

pub use text::make_text;
