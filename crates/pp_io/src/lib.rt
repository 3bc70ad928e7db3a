//! Where a run's text comes from and where its answer goes: sources, sinks, and how all of a
//! source is read and all of an answer written.
#![tactic(auto)]

mod calls;
mod ends;
mod give;
mod memory;
mod reading;
mod steady;
mod writing;

pub use ends::{Failed, Sink, Source};
pub use memory::{MemorySink, MemorySource};
pub use reading::{ReadError, read_all};
pub use steady::{SteadySink, SteadySource};
pub use writing::{WriteError, write_all};
