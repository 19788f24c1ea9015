//! The rounds, one after another, until no file is left.
ghost use Rattle.std.specs.Prelude.{◌≡◌, ◌<◌, ◌≤◌, ◌^◌, ◌++◌, drop, length, take, IfOk, IsErrOf, OnOk};
ghost use Rattle.std.specs.List.{AllByRecursion, AllZip};
ghost use Rattle.build_round.specs.Readers.{AllTell, SomeRose};
ghost use Rattle.claim_board.specs.Claims.{AreSeatsOf, board_files, lists_of};
ghost use Rattle.claim_board.specs.Lists.{empty_lists};
ghost use Rattle.outside.specs.Tree.{Tree};
ghost use Rattle.resolve_path.specs.Caches.{AreTrue};
ghost use Rattle.tree_listing.specs.Listing.{IsListingOf};
ghost use Rattle.make_rounds.specs.inner.Answered.{numbers_of};
ghost use Rattle.make_rounds.specs.inner.Growing.{Grows, HasWon, IsFinished};

use crate::MakeEnd;
use crate::found::Found;
use crate::reader_laws::reader_laws;
use build_round::round;
use claim_board::{ClaimBoard, ClaimSeat};
use graph_types::Config;
use outside::TreeReader;
use pack_util::{FileId, NoMemory};
use resolve_path::ManifestCache;
use std::alloc::Global;
use std::thread::Threads;
use tree_listing::Listing;

/// How many files of a frontier a round takes at most.
const MOST_FILES: usize = u32::MAX as usize;

/// The first files of a frontier, as many as a round takes.
fn first_piece(frontier: &[FileId]) -> &[FileId]
    ensures front { result.now ≡ take (length result.now) frontier.now }
    ensures within { length result.now ≤ length frontier.now }
    ensures short { length result.now < 2 ^ 32 }
    ensures some { 0 < length frontier.now → 0 < length result.now }
{
    let taken = frontier.len().min(MOST_FILES);
    &frontier[..taken]
}

/// The files of a frontier behind so many, and then those that were named.
fn next_frontier(
    alloc: Global,
    frontier: Vec<FileId>,
    taken: usize,
    named: Vec<FileId>,
) -> Result<Vec<FileId>, NoMemory>
    requires { taken ≤ length frontier.items }
    ensures { IfOk result (λ next. next.items ≡ drop taken frontier.items ++ named.items) }
{
    if taken == frontier.len() {
        return Ok(named);
    }
    let mut next = Vec::new(alloc);
    next.extend_from_slice(&frontier[taken..])?;
    next.extend_from_slice(&named)?;
    Ok(next)
}

/// Has workers build the first files and all that they lead to, round after round: the files that a round's records name are
/// the next frontier. Each file of a frontier is counted before it is read.
pub(crate) fn grow<R: TreeReader + Send, Rt: Threads + Sync>(
    rt: &Rt,
    alloc: Global,
    readers: &mut Vec<R>,
    listing: &Listing,
    config: &Config,
    board: &ClaimBoard,
    seats: &mut Vec<ClaimSeat>,
    caches: &mut Vec<ManifestCache>,
    first: Vec<FileId>,
) -> Result<(), MakeEnd>
    requires some { 1 ≤ length seats.old.items }
    requires few { length seats.old.items ≤ 32 }
    requires seats { AreSeatsOf board.now seats.old.items }
    requires new { AllByRecursion (λ seat. lists_of seat ≡ empty_lists) seats.old.items }
    requires files { board_files board.now ≡ length listing.now.files }
    requires caches { length caches.old.items ≡ length seats.old.items }
    requires readers { length seats.old.items ≤ length readers.old.items }
    requires within { AllByRecursion (λ file. file.0 < length listing.now.files) first.items }
    ensures follow { AllZip R.follows readers.old.items readers.new.items }
    ensures others { drop (length seats.old.items) readers.new.items ≡ drop (length seats.old.items) readers.old.items }
    ensures cause { IsErrOf result MakeEnd.ReadFault → SomeRose R.view readers.old.items readers.new.items }
    ensures seats { AreSeatsOf board.now seats.new.items }
    ensures won { AllByRecursion (HasWon (length listing.now.files)) seats.new.items }
    ensures finished { OnOk result (IsFinished (numbers_of first.items) seats.new.items) }
    ensures told { (tree : Tree) → AllTell R.view readers.old.items tree → IsListingOf tree listing.now → AllByRecursion (AreTrue tree) caches.old.items
        → Grows R.view tree config.now (numbers_of first.items) readers.old.items readers.new.items seats.new.items result }
{
    reader_laws(readers);
    let mut found = Found::new(alloc, listing)?;
    let mut frontier = first;
    while !frontier.is_empty() {
        let piece = first_piece(&frontier);
        let taken = piece.len();
        found.add(listing, piece)?;
        let named = round(
            rt, alloc, readers, listing, config, board, seats, caches, piece,
        )?;
        frontier = next_frontier(alloc, frontier, taken, named)?;
    }
    Ok(())
}
