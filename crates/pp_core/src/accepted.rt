//! What a report is answered.

/// What a core answers to a report.
#[derive(Debug, Clone, Copy, PartialEq, Eq)]
pub enum Accepted {
    /// The report counts, and the search goes on.
    Taken,
    /// The report counts, and no task is live or the value is settled.
    Settled,
    /// The report's task isn't live, so the report changed nothing.
    Stale,
}
