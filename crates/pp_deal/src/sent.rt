//! Where an item may go to another thread, so may hands and peeks, and what is left.
use crate::hand::{Hand, Left, Peek};

fn goes<X: Send + Drop>(_value: X) {}

fn a_hand_goes<T: Drop + Send>(hand: Hand<T>) {
    goes(hand);
}

fn a_peek_goes<T: Drop + Send>(peek: Peek<T>) {
    goes(peek);
}

fn what_is_left_goes<T: Drop + Send>(left: Left<T>) {
    goes(left);
}
