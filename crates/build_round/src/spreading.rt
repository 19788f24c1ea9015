//! The parts of a round, each in a thread of its own where one can be made.
ghost use Rattle.std.specs.Prelude.{◌≡◌, ◌<◌, All, length};
ghost use Rattle.std.specs.List.{AllByRecursion, AllZip};
ghost use Rattle.claim_board.specs.Claims.{board_files};
ghost use Rattle.draw_board.specs.Draws.{board_len};
ghost use Rattle.build_round.specs.inner.Parts.{DoesPart, IsReady};

use crate::part::Part;
use crate::working::do_part;
use claim_board::ClaimBoard;
use draw_board::DrawBoard;
use graph_types::Config;
use outside::TreeReader;
use pack_util::FileId;
use std::alloc::Global;
use std::thread;
use std::thread::Threads;
use tree_listing::Listing;

fn do_each<R: TreeReader + Send, Rt: Threads + Sync>(
    rt: &Rt,
    alloc: Global,
    listing: &Listing,
    config: &Config,
    board: &ClaimBoard,
    draws: &DrawBoard,
    frontier: &[FileId],
    parts: &mut [Part<R>],
)
    requires some { 0 < length parts.old }
    requires files { board_files board.now ≡ length listing.now.files }
    requires ready { All (IsReady board.now draws.now) parts.old }
    requires len { board_len draws.now ≡ length frontier.now }
    requires within { AllByRecursion (λ file. file.0 < length listing.now.files) frontier.now }
    ensures { AllZip (DoesPart R.view R.follows listing.now config.now frontier.now) parts.old parts.new }
{
    let count = parts.len();
    thread::for_each_mut(
        rt,
        parts,
        count,
        &|_: usize, part: &mut Part<R>|
            requires files { board_files board.now ≡ length listing.now.files }
            requires ready { IsReady board.now draws.now part.old }
            requires len { board_len draws.now ≡ length frontier.now }
            requires within { AllByRecursion (λ file. file.0 < length listing.now.files) frontier.now }
            ensures { DoesPart R.view R.follows listing.entry.now config.entry.now frontier.entry.now part.old part.new }
        { do_part(alloc, listing, config, board, draws, frontier, part) },
    );
}

/// Does all parts, and returns once each has ended.
pub(crate) fn do_all<R: TreeReader + Send, Rt: Threads + Sync>(
    rt: &Rt,
    alloc: Global,
    listing: &Listing,
    config: &Config,
    board: &ClaimBoard,
    draws: &DrawBoard,
    frontier: &[FileId],
    parts: &mut Vec<Part<R>>,
)
    requires some { 0 < length parts.old.items }
    requires files { board_files board.now ≡ length listing.now.files }
    requires ready { All (IsReady board.now draws.now) parts.old.items }
    requires len { board_len draws.now ≡ length frontier.now }
    requires within { AllByRecursion (λ file. file.0 < length listing.now.files) frontier.now }
    ensures { AllZip (DoesPart R.view R.follows listing.now config.now frontier.now) parts.old.items parts.new.items }
{
    do_each(
        rt,
        alloc,
        listing,
        config,
        board,
        draws,
        frontier,
        parts.as_mut_slice(),
    );
}
