//! What no contract says: that a call with ample memory answers, and what becomes of some values.
mod covering;
mod domains;
mod joins;
mod names;
mod rows;
mod samples;
mod terms;
