ghost use Rattle.std.specs.Prelude.{◌≡◌, ◌+◌};

use crate::answers::{Claim, Look};
use crate::rule::{Claiming, Claims, Giving, Looking, Taking, View};
use crate::seat::{ClaimSeat, Token};
use crate::ticket::Ticket;
use crate::words::{claimed_by, owner_in, published_by};
use atomic_table::Table;
use board_seats::{Blank, Seating};
use graph_types::ModRecord;
use pack_util::{FileId, NoMemory};
use std::alloc::Global;
use std::snapshot::Snapshot;

/// A board of so many files. Threads share it, and each claims and publishes with a seat of its own.
#[derive(Drop)]
pub struct ClaimBoard {
    pub(crate) table: Table<Option<ModRecord>, View, (u32, u32), Claims, Global>,
    pub(crate) files: u32,
    pub(crate) seats: u32,
    ghost sized: { (table.shared.table_id.words ≡ files + 1) × (table.shared.table_id.slots ≡ files) },
    ghost keyed: { table.shared.key ≡ (files, seats) },
}

impl ClaimBoard {
    ghost use Rattle.std.specs.Prelude.{◌<◌, true, [], None, map, replicate, IfOk};
    ghost use Rattle.std.specs.List.{AllByRecursion};
    ghost use Rattle.board_seats.specs.Seats.{only, numbered};
    ghost use Rattle.claim_board.specs.Lists.{empty_lists, is_in, lists_in, put_in, record_in};
    ghost use Rattle.claim_board.specs.Claims.{AreNew, AreSeatsOf, IsClaim, IsLook, IsOnce, IsSameSeat, IsSeatOf, IsTicket, board_files, lists_of, published, won};

    /// A board with its seats, numbered from 0 on.
    pub fn new(
        alloc: Global,
        files: u32,
        seats: u32,
    ) -> Result<(ClaimBoard, Vec<ClaimSeat>), NoMemory>
        ensures { IfOk result (λ made. AreNew files seats made.0 made.1.items) }
    {
        let words = Vec::from_elem(alloc, 0u64, files as usize + 1)?;
        let (table, rest) = Table::vacant(
            alloc,
            words.as_slice(),
            files as usize,
            &(files, seats),
        )?;
        let board = ClaimBoard {
            table,
            files,
            seats,
        };
        let dealt = board.deal(alloc, rest)?;
        Ok((board, dealt))
    }

    /// Makes the seat the file's owner where nobody owns it, and else tells the owner. Takes no memory, and doesn't wait.
    pub fn claim(&self, seat: &mut ClaimSeat, file: FileId) -> Claim
        requires board { IsSeatOf self.now seat.old }
        requires file { file.0 < board_files self.now }
        ensures board { IsSameSeat seat.old seat.new }
        ensures claim { IsClaim self.now seat.old seat.new file.0 result }
    {
        let mine = claimed_by(seat.number);
        let word = file.0 as usize + 1;
        let found = self
            .table
            .shared
            .compare_exchange::<Claiming>(&mut seat.token, word, 0, mine);
        if found == 0 {
            Claim::New(Ticket {
                file,
                seat: seat.number,
                board: Snapshot::of(&self.table.shared),
            })
        } else {
            Claim::Known(owner_in(found))
        }
    }

    /// Tells whether the file has an owner, and whether its record is published. Takes no memory, and doesn't wait.
    pub fn look(&self, seat: &mut ClaimSeat, file: FileId) -> Look
        requires board { IsSeatOf self.now seat.old }
        requires file { file.0 < board_files self.now }
        ensures board { IsSameSeat seat.old seat.new }
        ensures look { IsLook seat.old seat.new file.0 result }
    {
        let word = file.0 as usize + 1;
        let found = self.table.shared.load::<Looking>(&mut seat.token, word);
        if found == 0 {
            Look::Free
        } else if found % 2 == 0 {
            Look::Claimed(owner_in(found))
        } else {
            Look::Published(owner_in(found))
        }
    }

    /// Publishes the record of a file that the seat claimed. Takes no memory, and doesn't wait.
    pub fn publish(&self, seat: &mut ClaimSeat, ticket: Ticket, rec: ModRecord)
        requires board { IsSeatOf self.now seat.old }
        requires ticket { IsTicket self.now seat.old rec.file.0 ticket }
        requires file { rec.file.0 < board_files self.now }
        requires won { is_in rec.file.0 (won seat.old) ≡ true }
        requires once { record_in rec.file.0 (published seat.old) ≡ None }
        ensures board { IsSameSeat seat.old seat.new }
        ensures lists { lists_of seat.new ≡ put_in rec.file.0 rec (lists_of seat.old) }
        ensures once { IsOnce (lists_of seat.new) }
    {
        let Ticket {
            file: _,
            seat: _,
            board: _,
        } = ticket;
        self.put(&mut seat.token, seat.number, rec);
    }

    /// Takes the file's slot, puts the record in, and gives the slot back with the word that says so.
    fn put(&self, token: &mut Token, number: u32, rec: ModRecord)
        requires board { token.old.table_id ≡ self.now.table.shared.table_id }
        requires alone { (token.old.me ≡ (only number (lists_in token.old.me.0), [])) × ((lists_in token.old.me.0).out ≡ []) }
        requires file { rec.file.0 < self.now.files }
        requires won { is_in rec.file.0 (lists_in token.old.me.0).won ≡ true }
        requires once { record_in rec.file.0 (lists_in token.old.me.0).published ≡ None }
        ensures board { token.new.table_id ≡ token.old.table_id }
        ensures lists { token.new.me ≡ (only number (put_in rec.file.0 rec (lists_in token.old.me.0)), []) }
    {
        let slot = rec.file.0 as usize;
        let word = slot + 1;
        self.table.shared.load::<Taking>(token, word);
        drop(self.table.shared.exchange(token, slot, Some(rec)));
        self.table
            .shared
            .store::<Giving>(token, word, published_by(number));
    }

    /// One seat after another, each with a token of its own.
    fn deal(&self, alloc: Global, mut rest: Token) -> Result<Vec<ClaimSeat>, NoMemory>
        requires board { rest.table_id ≡ self.now.table.shared.table_id }
        requires seats { rest.me ≡ (numbered 0 (replicate self.now.seats empty_lists), []) }
        ensures { IfOk result (λ dealt. AreSeatsOf self.now dealt.items × AllByRecursion (λ seat. lists_of seat ≡ empty_lists) dealt.items) }
    {
        let mut dealt = Vec::new(alloc);
        for number in 0..self.seats {
            let token = self.table.shared.split_seat::<Seating>(&mut rest);
            dealt.push(ClaimSeat { token, number })?;
        }
        Ok(dealt)
    }

    /// A token of all seats.
    pub(crate) fn gather(&self, seats: Vec<ClaimSeat>) -> Token
        requires { AreSeatsOf self.now seats.items }
        ensures { (result.table_id ≡ self.now.table.shared.table_id) × (result.me ≡ (numbered 0 (map lists_of seats.items), [])) }
    {
        let (_, mut all) = self.table.shared.load_new_seat::<Blank>(0);
        for seat in seats {
            let ClaimSeat { token, number: _ } = seat;
            self.table.shared.join_seat::<Seating>(&mut all, token);
        }
        all
    }
}
