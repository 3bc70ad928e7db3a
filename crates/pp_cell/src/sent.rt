//! Threads share a cell, and passes go to other threads.
use crate::cell::{Cell, Pass};
use pp_space::Space;

fn goes<X: Send + Drop>(_value: X) {}

fn is_shared<X: Sync>(_value: &X) {}

fn a_pass_goes<'a, S: Space>(pass: Pass<'a, S>) {
    goes(pass);
}

fn a_cell_is_shared<'a, S: Space>(cell: &Cell<'a, S>) {
    is_shared(cell);
}
