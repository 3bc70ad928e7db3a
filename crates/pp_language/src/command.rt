//! What the words of the command line ask for.

/// What a command does.
#[derive(Clone, Copy, Debug, PartialEq, Eq)]
pub enum CommandKind {
    /// Runs a text with workers.
    Run,
    /// Runs a text on one thread.
    Alone,
    /// Runs the generated text of this number, and writes a summary.
    Make(u32),
}

/// What bounds a run, and how many search for it.
#[derive(Clone, Copy, Debug, PartialEq, Eq)]
pub struct Settings {
    /// How many clauses deep a goal is searched.
    pub depth: u32,
    /// The most turns of the run.
    pub turns: u64,
    /// How many workers search.
    pub workers: u32,
    /// How many of the first waiting goals are searched at once.
    pub ahead: u32,
}

/// A command: what it does, its settings, and whether each change is told.
#[derive(Clone, Copy, Debug, PartialEq, Eq)]
pub struct Command {
    pub kind: CommandKind,
    pub settings: Settings,
    pub trace: bool,
}
