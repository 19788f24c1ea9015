//! One file of a frontier.
ghost use Rattle.std.specs.Prelude.{◌≡◌, ◌<◌, [], ◌∷◌, true, length, None};
ghost use Rattle.claim_board.specs.Claims.{IsSeatOf, IsTicket, board_files, published, won};
ghost use Rattle.claim_board.specs.Lists.{is_in, record_in};
ghost use Rattle.build_round.specs.inner.Parts.{BuildsOne, Works};

use crate::keeping::keep_free;
use crate::part::Bench;
use claim_board::{Claim, ClaimBoard, Ticket};
use graph_types::Config;
use module_build::build_one;
use outside::{OutsideEnd, TreeReader};
use pack_util::FileId;
use std::alloc::Global;
use tree_listing::Listing;

/// Builds and publishes a file that the seat claimed, and keeps what its record names and looks free.
fn build<R: TreeReader>(
    alloc: Global,
    listing: &Listing,
    config: &Config,
    board: &ClaimBoard,
    bench: &mut Bench<R>,
    file: FileId,
    ticket: Ticket,
) -> Result<(), OutsideEnd>
    requires board { IsSeatOf board.now bench.old.seat }
    requires files { board_files board.now ≡ length listing.now.files }
    requires file { file.0 < length listing.now.files }
    requires ticket { IsTicket board.now bench.old.seat file.0 ticket }
    requires won { is_in file.0 (won bench.old.seat) ≡ true }
    requires unpublished { record_in file.0 (published bench.old.seat) ≡ None }
    ensures { BuildsOne R.view R.follows listing.now config.now file.0 bench.old bench.new result }
{
    let rec = build_one(
        alloc,
        &mut bench.reader,
        listing,
        config,
        &mut bench.cache,
        file,
    )?;
    keep_free(
        board,
        &mut bench.seat,
        &mut bench.kept,
        rec.items.as_slice(),
    )?;
    board.publish(&mut bench.seat, ticket, rec);
    Ok(())
}

/// Claims a file, and builds it where nobody owned it.
pub(crate) fn take<R: TreeReader>(
    alloc: Global,
    listing: &Listing,
    config: &Config,
    board: &ClaimBoard,
    bench: &mut Bench<R>,
    file: FileId,
) -> Result<(), OutsideEnd>
    requires board { IsSeatOf board.now bench.old.seat }
    requires files { board_files board.now ≡ length listing.now.files }
    requires file { file.0 < length listing.now.files }
    ensures { Works R.view R.follows listing.now config.now (file.0 ∷ []) bench.old bench.new result }
{
    match board.claim(&mut bench.seat, file) {
        Claim::New(ticket) => build(alloc, listing, config, board, bench, file, ticket),
        Claim::Known(_) => Ok(()),
    }
}
