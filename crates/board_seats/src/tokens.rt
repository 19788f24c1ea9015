use atomic_table::{Join, Play, Split};
use std::collections::LinkedList;

/// The seats that a token stands for, each with its number and its entry. No value of it is made.
pub type Tokens<E> = LinkedList<(u32, E)>;

/// A token gives its first seat to a new token, and takes in all seats of another.
pub struct Seating;

impl<E> Split<LinkedList<(u32, E)>> for Seating {
    ghost use Rattle.board_seats.specs.Seats.{first_of, rest_of};

    ghost left = { rest_of };

    ghost right = { first_of };
}

impl<E> Join<LinkedList<(u32, E)>> for Seating {
    ghost use Rattle.std.specs.Prelude.{◌++◌, []};

    ghost both = { λ taking taken. taking ++ taken };

    ghost spent = { [] };
}

/// A new token stands for no seat.
pub struct Blank;

impl<S, E> Play<S, LinkedList<(u32, E)>> for Blank {
    ghost use Rattle.std.specs.Prelude.{◌≡◌, []};

    ghost then = { λ _ _ _ now. now ≡ ([], []) };
}
