//! What no contract says: that a call with ample memory answers, and what the worked rows show.
mod built_ins;
mod clauses;
