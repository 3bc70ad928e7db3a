//! What is done with goals under bindings, and what becomes of the bindings.
mod acts;
mod goals;
