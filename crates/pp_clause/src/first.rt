//! First arguments.

/// What is known of a goal's first argument. `Free` is a variable, or no argument at all; a functor has its name and
/// its number of arguments, which is at least one.
#[derive(Clone, Copy, Debug, PartialEq, Eq, Hash)]
pub enum First {
    Int(i64),
    Atom(u32),
    Functor(u32, u32),
    Free,
}
