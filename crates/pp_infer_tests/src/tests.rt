//! What no contract says: that a call with ample memory answers, that it ends soon, and that workers share a search.
mod gates;
mod verdicts;
