//! The make phase: workers grow one module graph, round by round.
ghost use Rattle.std.specs.Prelude.{◌≡◌, ℕ, ◌≤◌, drop, length, IfOk, IsErrOf};
ghost use Rattle.std.specs.List.{AllZip};
ghost use Rattle.build_round.specs.Readers.{AllTell, SomeRose};
ghost use Rattle.graph_types.specs.Fits.{Fits};
ghost use Rattle.outside.specs.Tree.{Tree};
ghost use Rattle.tree_listing.specs.Listing.{IsListingOf};
ghost use Rattle.make_rounds.specs.Make.{AreOwned, Makes};

use crate::closing::finish;
use crate::entry_files::Entries;
use crate::finding::{Start, begin};
use crate::growing::grow;
use crate::reader_laws::reader_laws;
use crate::{Grown, MakeEnd};
use graph_types::Config;
use outside::TreeReader;
use std::alloc::Global;
use std::thread::Threads;
use tree_listing::Listing;

/// The module graph of a configuration at a path, grown by so many workers, and who built each module. The faults of the
/// entries' requests stand first among the graph's.
pub fn make<R: TreeReader + Send, Rt: Threads + Sync>(
    rt: &Rt,
    alloc: Global,
    readers: &mut Vec<R>,
    workers: u32,
    listing: &Listing,
    config: &Config,
    config_path: &str,
) -> Result<Grown, MakeEnd>
    requires some { 1 ≤ workers }
    requires few { workers ≤ 32 }
    requires readers { workers ≤ length readers.old.items }
    ensures follow { AllZip R.follows readers.old.items readers.new.items }
    ensures others { drop workers readers.new.items ≡ drop workers readers.old.items }
    ensures cause { IsErrOf result MakeEnd.ReadFault → SomeRose R.view readers.old.items readers.new.items }
    ensures fit { IfOk result (λ grown. Fits (length config.now.entries) grown.graph) }
    ensures owned { IfOk result (λ grown. AreOwned (length listing.now.files) workers grown.graph grown.owners) }
    ensures told { (tree : Tree) → AllTell R.view readers.old.items tree → IsListingOf tree listing.now
        → Makes R.view tree config.now config_path.now readers.old.items readers.new.items result }
{
    reader_laws(readers);
    let start = begin(alloc, readers, workers, listing, config, config_path)?;
    let Start {
        entries,
        first,
        board,
        mut seats,
        mut caches,
    } = start;
    let Entries { files, faults } = entries;
    let end = grow(
        rt,
        alloc,
        readers,
        listing,
        config,
        &board,
        &mut seats,
        &mut caches,
        first,
    );
    finish(alloc, board, seats, end, &files, faults)
}
