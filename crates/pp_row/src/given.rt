//! What is known of the top of a term.

/// What the top of a term is at the moment: an integer, a variable with a finite domain, a variable of domain
/// `any`, or an atom or compound.
#[derive(Clone, Copy, Debug, PartialEq, Eq)]
pub enum Given {
    Int(i64),
    Ranged,
    Free,
    Other,
}
