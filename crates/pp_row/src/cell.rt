//! Cells.
ghost use Rattle.std.specs.Prelude.{◌≡◌};
ghost use Rattle.pp_row.specs.Cells.{arity_of};

/// A cell of a term in prefix order. A compound has its name and its number of arguments, whose cells follow it.
#[derive(Clone, Copy, Debug, PartialEq, Eq)]
pub enum Cell {
    Int(i64),
    Atom(u32),
    Compound(u32, u32),
    Var(u32),
}

impl Cell {
    /// How many terms follow the cell as its arguments.
    pub fn arity(self) -> u32
        ensures { result ≡ arity_of self }
    {
        match self {
            Cell::Compound(_, arity) => arity,
            _ => 0,
        }
    }
}
