//! What no contract says: that each call with ample memory answers, and the rows that it has come to.
mod machines;
mod steps;
mod walkers;
