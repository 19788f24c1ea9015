ghost use Rattle.std.specs.Prelude.{◌≡◌, []};
ghost use Rattle.board_seats.specs.Seats.{only};
ghost use Rattle.draw_board.specs.Hands.{hand_in};

use crate::hand::Hand;
use atomic_table::Seat;
use std::collections::LinkedList;

/// A token of the board's table, which stands for some of its seats.
pub(crate) type Token = Seat<(), LinkedList<(u32, Hand)>>;

/// A seat of a draw board. Contracts see the list of the positions that it drew, and whether it has drawn none.
#[derive(Drop)]
pub struct DrawSeat {
    pub(crate) token: Token,
    pub(crate) number: u32,
    ghost alone: { token.me ≡ (only number (hand_in token.me.0), []) },
}
