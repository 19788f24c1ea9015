//! The work of one worker.
ghost use Rattle.std.specs.Prelude.{◌≡◌, ◌<◌, length};
ghost use Rattle.std.specs.List.{AllByRecursion};
ghost use Rattle.claim_board.specs.Claims.{IsSeatOf, board_files};
ghost use Rattle.draw_board.specs.Draws.{IsNewSeat, board_len};
ghost use Rattle.draw_board.specs.Draws.{IsSeatOf as IsDrawSeatOf};
ghost use Rattle.build_round.specs.inner.Parts.{Does, IsReady};

use crate::part::{Bench, Part};
use crate::taking::take;
use claim_board::ClaimBoard;
use draw_board::{DrawBoard, DrawSeat};
use graph_types::Config;
use outside::{OutsideEnd, TreeReader};
use pack_util::FileId;
use std::alloc::Global;
use tree_listing::Listing;

/// Draws positions of the frontier until none is left, and takes the file at each.
fn work<R: TreeReader>(
    alloc: Global,
    listing: &Listing,
    config: &Config,
    board: &ClaimBoard,
    draws: &DrawBoard,
    frontier: &[FileId],
    bench: &mut Bench<R>,
    hand: &mut DrawSeat,
) -> Result<(), OutsideEnd>
    requires board { IsSeatOf board.now bench.old.seat }
    requires files { board_files board.now ≡ length listing.now.files }
    requires draws { IsDrawSeatOf draws.now hand.old }
    requires new { IsNewSeat hand.old }
    requires len { board_len draws.now ≡ length frontier.now }
    requires within { AllByRecursion (λ file. file.0 < length listing.now.files) frontier.now }
    ensures { Does R.view R.follows listing.now config.now frontier.now bench.old bench.new hand.old hand.new result }
{
    while let Some(position) = draws.draw(hand) {
        take(
            alloc,
            listing,
            config,
            board,
            bench,
            frontier[position as usize],
        )?;
    }
    Ok(())
}

/// Does a worker's part, and notes how it ended.
pub(crate) fn do_part<R: TreeReader>(
    alloc: Global,
    listing: &Listing,
    config: &Config,
    board: &ClaimBoard,
    draws: &DrawBoard,
    frontier: &[FileId],
    part: &mut Part<R>,
)
    requires files { board_files board.now ≡ length listing.now.files }
    requires ready { IsReady board.now draws.now part.old }
    requires len { board_len draws.now ≡ length frontier.now }
    requires within { AllByRecursion (λ file. file.0 < length listing.now.files) frontier.now }
    ensures { Does R.view R.follows listing.now config.now frontier.now part.old.bench part.new.bench part.old.hand part.new.hand part.new.end }
{
    part.end = work(
        alloc,
        listing,
        config,
        board,
        draws,
        frontier,
        &mut part.bench,
        &mut part.hand,
    );
}
