//! The numbers that bound a text and a command, each named once.

/// The most bytes of a text.
pub const TEXT_LIMIT: usize = 4_194_304;

/// The most clauses of a text.
pub const CLAUSE_LIMIT: usize = 65_535;

/// The most arguments of a compound, a head or a goal.
pub const ARITY_LIMIT: usize = 255;

/// The most variables of a clause, each `_` counted.
pub const CLAUSE_VARIABLE_LIMIT: usize = 255;

/// The most variables of the query, each `_` counted.
pub const QUERY_VARIABLE_LIMIT: usize = 10_000;

/// The most annotated goals of the query.
pub const GOAL_LIMIT: usize = 1_000;

/// The most workers of a command.
pub const WORKER_LIMIT: u32 = 64;

/// The most waiting goals that a command searches at once.
pub const AHEAD_LIMIT: u32 = 8;

/// The greatest depth of a command.
pub const DEPTH_LIMIT: u32 = 10_000;

/// The most turns of a command.
pub const TURN_LIMIT: u64 = 1_000_000;

/// The greatest number that `make` takes.
pub const MAKE_LIMIT: u32 = 999;

/// The workers of a command that doesn't say.
pub const DEFAULT_WORKERS: u32 = 4;

/// How many waiting goals a command that doesn't say searches at once.
pub const DEFAULT_AHEAD: u32 = 1;

/// The depth of a command that doesn't say.
pub const DEFAULT_DEPTH: u32 = 1_000;

/// The turns of a command that doesn't say.
pub const DEFAULT_TURNS: u64 = 10_000;
