//! What no contract says: that a call with ample memory answers, and what becomes of some texts.
mod printing;
mod programs;
mod tokens;
mod words;
mod written;
