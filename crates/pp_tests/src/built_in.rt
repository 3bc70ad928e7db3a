//! Built-ins, and what they decide.

/// A built-in on integers.
#[derive(Clone, Copy, Debug, PartialEq, Eq)]
pub enum Test {
    /// `#<`
    Less,
    /// `#=<`
    AtMost,
    /// `#=`
    Equal,
    /// `#\=`
    Differ,
    /// `plus/3`
    Plus,
    /// `times/3`
    Times,
    /// `indomain/1`
    Indomain,
}

/// What is done with the goal of a built-in.
#[derive(Clone, Copy, Debug, PartialEq, Eq)]
pub enum Decision {
    /// The goal is passed over.
    Wait,
    /// The branch fails.
    Fail,
    /// The goal is done.
    Hold,
    /// The argument at this place, from 0, is to be equal to this integer.
    Bind(usize, i64),
    /// There is a choice of each value of the variable's domain, ascending.
    Split,
}
