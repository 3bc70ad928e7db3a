//! Threads share a stop word, and seats go to other threads.
use crate::seat::{Stop, StopSeat};

fn goes<X: Send + Drop>(_value: X) {}

fn is_shared<X: Sync>(_value: &X) {}

fn a_seat_goes(seat: StopSeat) {
    goes(seat);
}

fn a_stop_word_is_shared(stop: Stop) {
    is_shared(&stop);
    goes(stop);
}
