//! What a seat knows of the stop word.

/// What a seat has seen, and how often it looked. No value of it is made.
pub struct View {
    pub settled: bool,
    pub dry: bool,
    pub loads: u64,
    /// The loads that were made when a bit had been seen already.
    pub late: u64,
}
