//! Predicates, and what a goal asks.

/// A predicate: the number of its name, and its number of arguments.
#[derive(Clone, Copy, Debug, PartialEq, Eq)]
pub struct Pred {
    pub name: u32,
    pub arity: u32,
}

/// What a goal with arguments calls: a predicate of the text, or a built-in.
#[derive(Clone, Copy, Debug, PartialEq, Eq)]
pub enum Shape {
    User(Pred),
    Plus,
    Times,
    Indomain,
}

/// A comparison of two integers.
#[derive(Clone, Copy, Debug, PartialEq, Eq)]
pub enum Relation {
    Less,
    AtMost,
    Equal,
    Differ,
}

/// How the answers of an annotated goal are used.
#[derive(Clone, Copy, Debug, PartialEq, Eq)]
pub enum Mode {
    /// Narrow to what all answers have in common.
    Most,
    /// Narrow to the answer where there is exactly one.
    Unique,
    /// Fail where there is no answer; narrow nothing.
    Consistent,
}
