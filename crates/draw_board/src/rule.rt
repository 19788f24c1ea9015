//! What holds of a draw board between any two steps, and what a draw tells. These types are for the proofs alone.
use crate::hand::Hand;
use atomic_table::{Play, TableRule};
use std::collections::LinkedList;

/// The board's one word is the next position. Its key is the board's length and how many seats it has.
pub struct Positions;

impl TableRule<(), LinkedList<(u32, Hand)>, (u32, u32)> for Positions {
    ghost use Rattle.std.specs.Prelude.{replicate};
    ghost use Rattle.board_seats.specs.Seats.{Seated, numbered};
    ghost use Rattle.draw_board.specs.Hands.{empty_hand};
    ghost use Rattle.draw_board.specs.inner.Rule.{IsDealt};

    ghost holds = { λ key. Seated (IsDealt key.0 key.1) };

    ghost first = { λ key. numbered 0 (replicate key.1 (empty_hand key.0)) };
}

pub struct Drawing;

impl Play<(), LinkedList<(u32, Hand)>> for Drawing {
    ghost use Rattle.draw_board.specs.inner.Rule.{Drawn};

    ghost then = { λ _ before found now. Drawn before found now };
}
