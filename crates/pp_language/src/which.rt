//! The limits of a text.

/// A quantity of a text that has a limit.
#[derive(Clone, Copy, Debug, PartialEq, Eq)]
pub enum Which {
    /// Its clauses, at most 65,535.
    Clauses,
    /// The arguments of a compound, a head or a goal, at most 255.
    Arity,
    /// The variables of a clause, at most 255, or of the query, at most 10,000.
    Variables,
    /// The annotated goals of the query, at most 1,000.
    Goals,
}
