//! What has grown, once no worker shares the board any more.
ghost use Rattle.std.specs.Prelude.{◌≡◌, IfOk, IfErr, IsOk};
ghost use Rattle.std.specs.List.{AllByRecursion};
ghost use Rattle.claim_board.specs.Claims.{AreSeatsOf, board_files};
ghost use Rattle.claim_board.specs.Closing.{Closes};
ghost use Rattle.make_rounds.specs.inner.Closed.{EndsFrom, IsGrownFrom, present};
ghost use Rattle.make_rounds.specs.inner.Growing.{HasWon};

use crate::counts::check_limits;
use crate::graph::graph;
use crate::{Grown, MakeEnd};
use claim_board::{ClaimBoard, ClaimSeat, Owners};
use fault_place::Fault;
use graph_types::ModRecord;
use pack_util::{FileId, NoMemory, Seq, add_some};
use std::alloc::{AllocError, Global};

/// The owners and the records that the closed board tells. Nothing but want of memory keeps it from that.
fn closed(
    alloc: Global,
    board: ClaimBoard,
    seats: Vec<ClaimSeat>,
) -> Result<(Owners, Vec<Option<ModRecord>>), NoMemory>
    requires { AreSeatsOf board seats.items }
    ensures { IfOk result (λ told. Closes (board_files board) seats.items told.0 told.1.items) }
{
    match board.close(alloc, seats) {
        Ok(told) => Ok(told),
        Err(_end) => Err(AllocError),
    }
}

/// The records that are there, by the numbers of their files.
fn records_of(alloc: Global, slots: Vec<Option<ModRecord>>) -> Result<Vec<ModRecord>, NoMemory>
    ensures { IfOk result (λ records. records.items ≡ present slots.items) }
{
    let mut records = Vec::new(alloc);
    for slot in slots {
        add_some(&mut records, slot)?;
    }
    Ok(records)
}

/// What the workers have grown, where they ended well and the records keep within the limits.
pub(crate) fn finish(
    alloc: Global,
    board: ClaimBoard,
    seats: Vec<ClaimSeat>,
    end: Result<(), MakeEnd>,
    entries: &[Seq<FileId>],
    faults: Vec<Fault>,
) -> Result<Grown, MakeEnd>
    requires seats { AreSeatsOf board seats.items }
    requires won { AllByRecursion (HasWon (board_files board)) seats.items }
    ensures ended { IsOk result → IsOk end }
    ensures ok { IfOk result (IsGrownFrom (board_files board) seats.items entries.now faults.items) }
    ensures err { IfErr result (EndsFrom (board_files board) seats.items end) }
{
    let (owners, slots) = closed(alloc, board, seats)?;
    end?;
    let records = records_of(alloc, slots)?;
    check_limits(&records)?;
    let graph = graph(alloc, records, entries, faults)?;
    Ok(Grown { graph, owners })
}
