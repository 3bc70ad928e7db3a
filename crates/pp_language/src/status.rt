//! How a run of the program ends.
ghost use Rattle.std.specs.Prelude.{◌≡◌};
ghost use Rattle.pp_language.specs.Statuses.{code_of};

/// How a call of the program ended.
#[derive(Clone, Copy, Debug, PartialEq, Eq)]
pub enum Status {
    /// No goal waits any longer, and none failed.
    Yes,
    /// A goal failed, or the query's equations have no solution.
    No,
    /// The words ask for no command.
    Usage,
    /// A sentence of the text is at fault.
    Syntax,
    /// The set number of turns was made, and a goal still waits.
    Stopped,
    /// The text passes a limit.
    Limit,
    /// The source failed.
    ReadFault,
    /// The sink failed: what was to be written was written in part.
    WriteFault,
    /// There was no memory: nothing was written.
    Memory,
}

impl Status {
    /// The exit status of the process.
    pub fn code(self) -> u8
        ensures { result ≡ code_of self }
    {
        match self {
            Status::Yes => 0,
            Status::No => 1,
            Status::Usage => 2,
            Status::Syntax => 3,
            Status::Stopped => 4,
            Status::Limit => 5,
            Status::ReadFault => 6,
            Status::WriteFault => 7,
            Status::Memory => 8,
        }
    }
}
