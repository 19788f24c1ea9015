//! The files that a record names and that nobody owns yet.
ghost use Rattle.std.specs.Prelude.{◌≡◌, ◌<◌, [], ◌∷◌, filter_map, IfSome, OnOk};
ghost use Rattle.std.specs.List.{AllByRecursion};
ghost use Rattle.claim_board.specs.Claims.{IsSeatOf, board_files};
ghost use Rattle.graph_types.specs.Targets.{item_target};
ghost use Rattle.build_round.specs.inner.Parts.{Adds, Keeps};

use claim_board::{ClaimBoard, ClaimSeat, Look};
use graph_types::Item;
use pack_util::{FileId, NoMemory};

/// Keeps the file where it looks free.
fn keep_one(
    board: &ClaimBoard,
    seat: &mut ClaimSeat,
    kept: &mut Vec<FileId>,
    file: FileId,
) -> Result<(), NoMemory>
    requires board { IsSeatOf board.now seat.old }
    requires file { file.0 < board_files board.now }
    ensures seat { Adds seat.old seat.new [] [] }
    ensures kept { OnOk result (Keeps (board_files board.now) seat.new (file.0 ∷ []) kept.old.items kept.new.items) }
{
    match board.look(seat, file) {
        Look::Free => kept.push(file)?,
        Look::Claimed(_) => {}
        Look::Published(_) => {}
    }
    Ok(())
}

/// Keeps the file that an item names, where it names one and that looks free.
fn keep_target(
    board: &ClaimBoard,
    seat: &mut ClaimSeat,
    kept: &mut Vec<FileId>,
    item: &Item,
) -> Result<(), NoMemory>
    requires board { IsSeatOf board.now seat.old }
    requires within { IfSome item.now.target (λ target. target.0 < board_files board.now) }
    ensures seat { Adds seat.old seat.new [] [] }
    ensures kept { OnOk result (Keeps (board_files board.now) seat.new (filter_map item_target (item.now ∷ [])) kept.old.items kept.new.items) }
{
    match item.target {
        Some(file) => keep_one(board, seat, kept, file),
        None => Ok(()),
    }
}

/// Keeps each file that the items name and that looks free.
pub(crate) fn keep_free(
    board: &ClaimBoard,
    seat: &mut ClaimSeat,
    kept: &mut Vec<FileId>,
    items: &[Item],
) -> Result<(), NoMemory>
    requires board { IsSeatOf board.now seat.old }
    requires within { AllByRecursion (λ item. IfSome item.target (λ target. target.0 < board_files board.now)) items.now }
    ensures seat { Adds seat.old seat.new [] [] }
    ensures kept { OnOk result (Keeps (board_files board.now) seat.new (filter_map item_target items.now) kept.old.items kept.new.items) }
{
    for item in items {
        keep_target(board, seat, kept, item)?;
    }
    Ok(())
}
