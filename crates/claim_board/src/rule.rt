//! What holds of a claim board between any two steps, and what each step tells. These types are for the proofs alone.
use crate::lists::Lists;
use atomic_table::{Play, Shared, TableRule};
use graph_types::ModRecord;
use std::collections::LinkedList;

/// The seats that a token stands for.
pub(crate) type View = LinkedList<(u32, Lists<ModRecord>)>;

/// The table as threads step on it.
pub(crate) type Steps = Shared<Option<ModRecord>, View, (u32, u32), Claims>;

/// A file has a word and a slot. The board's key is how many files and how many seats it has.
pub struct Claims;

impl TableRule<Option<ModRecord>, LinkedList<(u32, Lists<ModRecord>)>, (u32, u32)> for Claims {
    ghost use Rattle.std.specs.Prelude.{replicate};
    ghost use Rattle.board_seats.specs.Seats.{Seated, numbered};
    ghost use Rattle.claim_board.specs.Lists.{empty_lists};
    ghost use Rattle.claim_board.specs.Rule.{IsKept};

    ghost holds = { λ key. Seated (IsKept key.0 key.1) };

    ghost first = { λ key. numbered 0 (replicate key.1 empty_lists) };
}

pub struct Claiming;

impl Play<Option<ModRecord>, LinkedList<(u32, Lists<ModRecord>)>> for Claiming {
    ghost use Rattle.claim_board.specs.inner.Steps.{Told, after_claim};

    ghost then = { Told after_claim };
}

pub struct Looking;

impl Play<Option<ModRecord>, LinkedList<(u32, Lists<ModRecord>)>> for Looking {
    ghost use Rattle.claim_board.specs.inner.Steps.{Told, after_look};

    ghost then = { Told after_look };
}

/// The seat takes the file's slot.
pub struct Taking;

impl Play<Option<ModRecord>, LinkedList<(u32, Lists<ModRecord>)>> for Taking {
    ghost use Rattle.claim_board.specs.inner.Steps.{Took};

    ghost then = { λ step before _ now. Took step before now };
}

/// The seat gives the slot back, with the record in it.
pub struct Giving;

impl Play<Option<ModRecord>, LinkedList<(u32, Lists<ModRecord>)>> for Giving {
    ghost use Rattle.claim_board.specs.inner.Steps.{Gave};

    ghost then = { λ _ before _ now. Gave before now };
}
