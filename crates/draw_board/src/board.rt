ghost use Rattle.std.specs.Prelude.{◌≡◌};

use crate::hand::Hand;
use crate::rule::{Drawing, Positions};
use crate::seat::{DrawSeat, Token};
use atomic_table::Table;
use board_seats::{Blank, Seating};
use pack_util::NoMemory;
use std::alloc::Global;
use std::collections::LinkedList;

/// A board of so many positions. Threads share it, and each draws with a seat of its own.
#[derive(Drop)]
pub struct DrawBoard {
    table: Table<(), LinkedList<(u32, Hand)>, (u32, u32), Positions, Global>,
    len: u32,
    seats: u32,
    ghost sized: { (table.shared.table_id.words ≡ 1) × (table.shared.table_id.slots ≡ 0) },
    ghost keyed: { table.shared.key ≡ (len, seats) },
}

impl DrawBoard {
    ghost use Rattle.std.specs.Prelude.{false, [], map, replicate, IfOk};
    ghost use Rattle.std.specs.List.{AllByRecursion};
    ghost use Rattle.board_seats.specs.Seats.{numbered};
    ghost use Rattle.draw_board.specs.Hands.{empty_hand};
    ghost use Rattle.draw_board.specs.Draws.{AreNew, AreSeatsOf, Closes, Draws, IsNewSeat, IsSameSeat, IsSeatOf, board_len, hand_of, has_drawn_none};

    /// A board with its seats, numbered from 0 on.
    pub fn new(alloc: Global, len: u32, seats: u32) -> Result<(DrawBoard, Vec<DrawSeat>), NoMemory>
        ensures { IfOk result (λ made. AreNew len seats made.0 made.1.items) }
    {
        let (table, rest) = Table::of_words(alloc, &[0], &(len, seats))?;
        let board = DrawBoard { table, len, seats };
        let dealt = board.deal(alloc, rest)?;
        Ok((board, dealt))
    }

    /// Draws the next position, or none where all are drawn. Takes no memory, and doesn't wait.
    pub fn draw(&self, seat: &mut DrawSeat) -> Option<u32>
        requires board { IsSeatOf self.now seat.old }
        requires more { has_drawn_none seat.old ≡ false }
        ensures board { IsSameSeat seat.old seat.new }
        ensures drawn { Draws (board_len self.now) seat.old seat.new result }
    {
        let next = self
            .table
            .shared
            .fetch_add::<Drawing>(&mut seat.token, 0, 1);
        if next < self.len as u64 {
            Some(next as u32)
        } else {
            None
        }
    }

    /// How many positions were drawn. Takes no memory.
    pub fn close(self, seats: Vec<DrawSeat>) -> u32
        requires { AreSeatsOf self seats.items }
        ensures { Closes (board_len self) seats.items result }
    {
        let all = self.gather(seats);
        let DrawBoard {
            table,
            len,
            seats: _,
        } = self;
        let closed = table.close_with(all);
        let next = closed.word(0);
        closed.free();
        if next < len as u64 { next as u32 } else { len }
    }

    /// One seat after another, each with a token of its own.
    fn deal(&self, alloc: Global, mut rest: Token) -> Result<Vec<DrawSeat>, NoMemory>
        requires board { rest.table_id ≡ self.now.table.shared.table_id }
        requires seats { rest.me ≡ (numbered 0 (replicate self.now.seats (empty_hand self.now.len)), []) }
        ensures { IfOk result (λ dealt. AreSeatsOf self.now dealt.items × AllByRecursion IsNewSeat dealt.items) }
    {
        let mut dealt = Vec::new(alloc);
        for number in 0..self.seats {
            let token = self.table.shared.split_seat::<Seating>(&mut rest);
            dealt.push(DrawSeat { token, number })?;
        }
        Ok(dealt)
    }

    /// A token of all seats.
    fn gather(&self, seats: Vec<DrawSeat>) -> Token
        requires { AreSeatsOf self.now seats.items }
        ensures { (result.table_id ≡ self.now.table.shared.table_id) × (result.me ≡ (numbered 0 (map hand_of seats.items), [])) }
    {
        let (_, mut all) = self.table.shared.load_new_seat::<Blank>(0);
        for seat in seats {
            let DrawSeat { token, number: _ } = seat;
            self.table.shared.join_seat::<Seating>(&mut all, token);
        }
        all
    }
}
