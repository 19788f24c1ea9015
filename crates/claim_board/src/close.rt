//! What a board tells once no thread shares it any more.
ghost use Rattle.std.specs.Prelude.{◌≡◌, ◌⊎◌, ℕ, ◌+◌, ◌-◌, ◌/◌, ◌^◌, ◌<◌, ◌≤◌, [], ◌∷◌, ◌++◌, false, length, slice_index_or, vec_capacity};
ghost use Rattle.std.specs.Slots.{slots_items, slots_filled, slots_len, IsFull};
ghost use mathlib.Core.Option.{some};
ghost use lib.ListN.{get_elem?};
ghost use Rattle.claim_board.specs.Shown.{owner_shown};

use crate::words::owner_in;
use crate::{ClaimBoard, ClaimSeat, Owners};
use atomic_table::Closed;
use graph_types::ModRecord;
use std::alloc::Global;

/// There was no memory for the answer. The board and its seats come back as they were.
#[derive(Drop)]
pub struct CloseEnd {
    pub board: ClaimBoard,
    pub seats: Vec<ClaimSeat>,
}

impl ClaimBoard {
    ghost use Rattle.std.specs.Prelude.{IfOk, IfErr};
    ghost use Rattle.claim_board.specs.Claims.{AreSeatsOf, board_files};
    ghost use Rattle.claim_board.specs.Closing.{Closes};

    /// Each file's owner and record, by the files' numbers.
    pub fn close(
        self,
        alloc: Global,
        seats: Vec<ClaimSeat>,
    ) -> Result<(Owners, Vec<Option<ModRecord>>), CloseEnd>
        requires { AreSeatsOf self seats.items }
        ensures ok { IfOk result (λ told. Closes (board_files self) seats.items told.0 told.1.items) }
        ensures err { IfErr result (λ end. (end.board ≡ self) × (end.seats ≡ seats)) }
    {
        let files = self.files;
        let Ok(owners) = Vec::with_capacity(alloc, files as usize) else {
            return Err(CloseEnd { board: self, seats });
        };
        let Ok(records) = Vec::with_capacity(alloc, files as usize) else {
            return Err(CloseEnd { board: self, seats });
        };
        let all = self.gather(seats);
        let ClaimBoard {
            table,
            files: _,
            seats: _,
        } = self;
        let mut closed = table.close_with(all);
        let list = read_owners(&closed, files, owners);
        let records = take_records(&mut closed, files, records);
        closed.free();
        Ok((Owners { list }, records))
    }
}

/// The owner that each file's word names.
fn read_owners(
    closed: &Closed<Option<ModRecord>, Global>,
    files: u32,
    mut owners: Vec<Option<u32>>,
) -> Vec<Option<u32>>
    requires words { (slots_len closed.now.words ≡ files + 1) × IsFull closed.now.words }
    requires room { (owners.items ≡ []) × (files ≤ vec_capacity owners) }
    requires fit { (file word : ℕ) → file < files → get_elem? (slots_items closed.now.words) (file + 1) ≡ some word → (word ≡ 0) ⊎ ((2 ≤ word) × (word / 2 - 1 < 2 ^ 32)) }
    ensures len { length result.items ≡ files }
    ensures owners { (file word : ℕ) → file < files → get_elem? (slots_items closed.now.words) (file + 1) ≡ some word → get_elem? result.items file ≡ some (owner_shown word) }
{
    for file in 0..files as usize {
        let word = closed.word(file + 1);
        push_within(&mut owners, owner_of(word));
    }
    owners
}

fn owner_of(word: u64) -> Option<u32>
    requires { (word ≡ 0) ⊎ ((2 ≤ word) × (word / 2 - 1 < 2 ^ 32)) }
    ensures { result ≡ owner_shown word }
{
    if word == 0 {
        None
    } else {
        Some(owner_in(word))
    }
}

/// The record in each file's slot.
fn take_records(
    closed: &mut Closed<Option<ModRecord>, Global>,
    files: u32,
    mut records: Vec<Option<ModRecord>>,
) -> Vec<Option<ModRecord>>
    requires slots { (slots_len closed.old.slots ≡ files) × IsFull closed.old.slots }
    requires room { (records.items ≡ []) × (files ≤ vec_capacity records) }
    ensures records { result.items ≡ slots_items closed.old.slots }
    ensures empty { (file : ℕ) → file < slots_len closed.new.slots → slice_index_or (slots_filled closed.new.slots) file false ≡ false }
{
    for file in 0..files as usize {
        let record = closed.take(file);
        push_within(&mut records, record);
    }
    records
}

/// Adds a member where there is room for it, which takes no memory.
fn push_within<T: Drop>(members: &mut Vec<T>, member: T)
    requires { length members.old.items < vec_capacity members.old }
    ensures { (members.new.items ≡ members.old.items ++ member ∷ []) × (vec_capacity members.old ≤ vec_capacity members.new) }
{
    if members.push(member).is_err() {
        unreachable!()
    }
}
