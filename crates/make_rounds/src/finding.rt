//! What workers begin with: the files of the entries, and a board, seats and caches that know nothing yet.
ghost use Rattle.std.specs.Prelude.{◌≡◌, ◌<◌, ◌≤◌, [], drop, flat_map, length, replicate, IfOk, IsErrOf};
ghost use Rattle.std.specs.List.{AllByRecursion, AllZip};
ghost use Rattle.build_round.specs.Readers.{AllTell, SomeRose};
ghost use Rattle.outside.specs.Tree.{Tree};
ghost use Rattle.tree_listing.specs.Listing.{IsListingOf};
ghost use Rattle.make_rounds.specs.inner.Starting.{AreReady, FindsFirst, Starts};

use crate::entry_files::{Entries, find_entries};
use claim_board::{ClaimBoard, ClaimSeat};
use graph_types::Config;
use outside::{OutsideEnd, TreeReader};
use pack_util::{FileId, NoMemory, Seq};
use resolve_path::ManifestCache;
use std::alloc::Global;
use tree_listing::Listing;

/// What workers begin with.
#[derive(Drop)]
pub(crate) struct Start {
    pub(crate) entries: Entries,
    /// The files of all entries, one entry after another.
    pub(crate) first: Vec<FileId>,
    pub(crate) board: ClaimBoard,
    pub(crate) seats: Vec<ClaimSeat>,
    pub(crate) caches: Vec<ManifestCache>,
}

/// A cache for each worker.
fn empty_caches(alloc: Global, workers: u32) -> Result<Vec<ManifestCache>, NoMemory>
    ensures { IfOk result (λ caches. caches.items ≡ replicate workers []) }
{
    let mut caches = Vec::new(alloc);
    for _ in 0..workers {
        caches.push(ManifestCache::new(alloc)?)?;
    }
    Ok(caches)
}

/// The files of all entries, one entry after another.
fn first_files(alloc: Global, entries: &[Seq<FileId>]) -> Result<Vec<FileId>, NoMemory>
    ensures { IfOk result (λ files. files.items ≡ flat_map (λ entry. entry) entries.now) }
{
    let mut files = Vec::new(alloc);
    for entry in entries {
        files.extend_from_slice(entry.as_slice())?;
    }
    Ok(files)
}

/// The files and the faults of the entries, by the first reader and the first cache.
fn find_first<R: TreeReader>(
    alloc: Global,
    readers: &mut Vec<R>,
    listing: &Listing,
    config: &Config,
    config_path: &str,
    caches: &mut Vec<ManifestCache>,
) -> Result<Entries, OutsideEnd>
    requires reader { 1 ≤ length readers.old.items }
    requires cache { 1 ≤ length caches.old.items }
    ensures follow { AllZip R.follows readers.old.items readers.new.items }
    ensures others { drop 1 readers.new.items ≡ drop 1 readers.old.items }
    ensures caches { length caches.new.items ≡ length caches.old.items }
    ensures cause { IsErrOf result OutsideEnd.Failed → SomeRose R.view readers.old.items readers.new.items }
    ensures count { IfOk result (λ found. length found.files.items ≡ length config.now.entries) }
    ensures within { IfOk result (λ found. AllByRecursion (AllByRecursion (λ file. file.0 < length listing.now.files)) found.files.items) }
    ensures told { (tree : Tree) → AllTell R.view readers.old.items tree → IsListingOf tree listing.now
        → FindsFirst R.view tree config.now config_path.now readers.old.items readers.new.items caches.old.items caches.new.items result }
{
    find_entries(
        alloc,
        &mut readers[0],
        listing,
        config,
        config_path,
        &mut caches[0],
    )
}

/// What so many workers begin with. The faults of the entries' requests are told of the configuration at a path.
pub(crate) fn begin<R: TreeReader>(
    alloc: Global,
    readers: &mut Vec<R>,
    workers: u32,
    listing: &Listing,
    config: &Config,
    config_path: &str,
) -> Result<Start, OutsideEnd>
    requires some { 1 ≤ workers }
    requires readers { 1 ≤ length readers.old.items }
    ensures follow { AllZip R.follows readers.old.items readers.new.items }
    ensures others { drop 1 readers.new.items ≡ drop 1 readers.old.items }
    ensures cause { IsErrOf result OutsideEnd.Failed → SomeRose R.view readers.old.items readers.new.items }
    ensures ready { IfOk result (AreReady (length listing.now.files) workers (length config.now.entries)) }
    ensures told { (tree : Tree) → AllTell R.view readers.old.items tree → IsListingOf tree listing.now
        → Starts R.view tree config.now config_path.now readers.old.items readers.new.items result }
{
    let mut caches = empty_caches(alloc, workers)?;
    let entries = find_first(alloc, readers, listing, config, config_path, &mut caches)?;
    let first = first_files(alloc, &entries.files)?;
    let (board, seats) = ClaimBoard::new(alloc, listing.count(), workers)?;
    Ok(Start {
        entries,
        first,
        board,
        seats,
        caches,
    })
}
