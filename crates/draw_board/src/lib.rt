//! A draw board: threads draw the positions 0, 1, 2, .. below a length, each position once, by one atomic step a draw.
//!
//! Each thread draws with a seat of its own, which knows what it drew. A position is drawn by one seat and once, a seat's
//! positions rise, and a seat draws none exactly once all are drawn. Closing the board with all its seats tells how many
//! positions were drawn.
//!
//! Nothing waits: there is no lock, and no call takes a handle.
#![tactic(auto)]

mod board;
mod hand;
mod rule;
mod seat;
mod shared;

pub use board::DrawBoard;
pub use seat::DrawSeat;
