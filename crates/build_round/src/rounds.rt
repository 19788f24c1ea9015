//! A round over a frontier of files.
ghost use Rattle.std.specs.Prelude.{◌≡◌, ℕ, ◌<◌, ◌≤◌, ◌^◌, length, drop, IfOk, IsErrOf};
ghost use Rattle.std.specs.List.{AllByRecursion, AllZip};
ghost use Rattle.claim_board.specs.Claims.{IsSeatOf, board_files};
ghost use Rattle.outside.specs.Tree.{Tree};
ghost use Rattle.tree_listing.specs.Listing.{IsListingOf};
ghost use Rattle.build_round.specs.Readers.{AllTell, SomeRose};
ghost use Rattle.build_round.specs.Rounds.{IsDone, Wins, WorksOn, workers_of};

use crate::answering::answer;
use crate::handing::{Handed, hand_back, hand_out};
use crate::spreading::do_all;
use claim_board::{ClaimBoard, ClaimSeat};
use draw_board::DrawBoard;
use graph_types::Config;
use outside::{OutsideEnd, TreeReader};
use pack_util::FileId;
use resolve_path::ManifestCache;
use std::alloc::Global;
use std::thread::Threads;
use tree_listing::Listing;

/// Any reader is itself after no call.
fn follow_themselves<R: TreeReader>(readers: &[R])
    ensures { AllZip R.follows readers.now readers.now }
{
    let _ = readers;
}

/// Claims, builds and publishes the files of a frontier, with a worker for each seat: worker i has reader i, seat i and
/// cache i. The answer is the files that the new records name and that looked free.
///
/// After a refusal the seats keep what they gained.
pub fn round<R: TreeReader + Send, Rt: Threads + Sync>(
    rt: &Rt,
    alloc: Global,
    readers: &mut Vec<R>,
    listing: &Listing,
    config: &Config,
    board: &ClaimBoard,
    seats: &mut Vec<ClaimSeat>,
    caches: &mut Vec<ManifestCache>,
    frontier: &[FileId],
) -> Result<Vec<FileId>, OutsideEnd>
    requires some { 1 ≤ length seats.old.items }
    requires few { length seats.old.items ≤ 32 }
    requires of_board { AllByRecursion (IsSeatOf board.now) seats.old.items }
    requires files { board_files board.now ≡ length listing.now.files }
    requires caches { length caches.old.items ≡ length seats.old.items }
    requires readers { length seats.old.items ≤ length readers.old.items }
    requires short { length frontier.now < 2 ^ 32 }
    requires within { AllByRecursion (λ file. file.0 < length listing.now.files) frontier.now }
    ensures follow { AllZip R.follows readers.old.items readers.new.items }
    ensures others { drop (length seats.old.items) readers.new.items ≡ drop (length seats.old.items) readers.old.items }
    ensures caches { length caches.new.items ≡ length caches.old.items }
    ensures cause { IsErrOf result OutsideEnd.Failed → SomeRose R.view readers.old.items readers.new.items }
    ensures wins { AllZip (Wins (length listing.now.files) frontier.now) seats.old.items seats.new.items }
    ensures done { IfOk result (λ answer. IsDone (length listing.now.files) frontier.now seats.old.items seats.new.items answer.items) }
    ensures told { (tree : Tree) → AllTell R.view readers.old.items tree → IsListingOf tree listing.now
        → AllByRecursion (WorksOn tree config.now) (workers_of R.view readers.old.items readers.new.items seats.old.items seats.new.items caches.old.items caches.new.items) }
{
    follow_themselves(readers.as_slice());
    let (draws, mut hands) = DrawBoard::new(alloc, frontier.len() as u32, seats.len() as u32)?;
    let Handed { mut parts, others } = hand_out(alloc, readers, seats, caches, &mut hands)?;
    do_all(
        rt, alloc, listing, config, board, &draws, frontier, &mut parts,
    );
    let answer = answer(alloc, parts.as_slice());
    hand_back(Handed { parts, others }, readers, seats, caches, &mut hands);
    draws.close(hands);
    answer
}
