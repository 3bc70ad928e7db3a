//! What no contract says: that a call with ample memory answers.
mod runs;
mod samples;
mod stores;
mod waiting;
