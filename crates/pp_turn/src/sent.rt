//! Where a value may go to another thread, so may its lock and its seats, and threads may share the lock.
use crate::kept::Kept;
use crate::seat::{Seat, Turn};

fn goes<X: Send + Drop>(_value: X) {}

fn is_shared<X: Sync>(_value: &X) {}

fn a_seat_goes<T: Kept + Drop + Send>(seat: Seat<T>) {
    goes(seat);
}

fn a_lock_is_shared<T: Kept + Drop + Send>(turn: Turn<T>) {
    is_shared(&turn);
    goes(turn);
}
