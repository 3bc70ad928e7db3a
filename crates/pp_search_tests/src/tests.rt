//! What no contract says: that a call with ample memory answers, and what becomes of some values.
mod bindings;
mod covering;
mod samples;
mod solving;
mod spans;
