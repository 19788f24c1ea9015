//! A board may be read by all threads at once, and a seat may be sent to any of them.

use crate::{DrawBoard, DrawSeat};

fn is_shared<T: Send + Sync>(_value: &T) {}

fn is_sent<T: Send>(_value: &T) {}

fn are_shared(board: &DrawBoard, seat: &DrawSeat) {
    is_shared(board);
    is_sent(seat);
}
